// What a definition is filled in to has a text within the limits of a text.
ghost use Rattle.std.specs.Prelude.{◌≡◌, true};
ghost use Rattle.types_base.specs.declared.device_def.DeviceDef.{DeviceDef};
ghost use Rattle.types_base.specs.declared.domain_def.DomainDef.{DomainDef};
ghost use Rattle.text_spec.specs.DevicePrinted.{device_tree, device_fits};
ghost use Rattle.text_spec.specs.DomainPrinted.{domain_tree, domain_fits};
ghost use Rattle.text_spec.specs.Fill.{IsFilled, IsDeviceFilled};
ghost use Rattle.text_spec.specs.Spelling.{fits};

/// A domain that fits once it is filled in fits as it is, and fits whatever it is filled in with.
pub fn filled_domain_fits()
    ensures as_it_stands { (d : DomainDef) → domain_fits d ≡ true → fits (domain_tree d) ≡ true }
    ensures filled { (d f : DomainDef) → domain_fits d ≡ true → IsFilled d f
        → fits (domain_tree f) ≡ true }
    ensures filled_again { (d f : DomainDef) → domain_fits d ≡ true → IsFilled d f
        → domain_fits f ≡ true }
{}

/// The same of a device.
pub fn filled_device_fits()
    ensures as_it_stands { (d : DeviceDef) → device_fits d ≡ true → fits (device_tree d) ≡ true }
    ensures filled { (d f : DeviceDef) → device_fits d ≡ true → IsDeviceFilled d f
        → fits (device_tree f) ≡ true }
    ensures filled_again { (d f : DeviceDef) → device_fits d ≡ true → IsDeviceFilled d f
        → device_fits f ≡ true }
{}
