// What is printed is read as what was printed.
ghost use Rattle.std.specs.Prelude.{◌≡◌, Ok};
ghost use Rattle.types_base.specs.declared.device_def.DeviceDef.{DeviceDef};
ghost use Rattle.types_base.specs.declared.domain_def.DomainDef.{DomainDef};
ghost use Rattle.text_spec.specs.DeviceList.{device_in};
ghost use Rattle.text_spec.specs.DevicePrinted.{device_tree};
ghost use Rattle.text_spec.specs.DomainPrinted.{domain_tree};
ghost use Rattle.text_spec.specs.DomainText.{domain_in};
ghost use Rattle.text_laws.specs.Given.{IsDevice, IsDomain};

/// The tree that a domain is printed as is, by the tables, that very domain.
pub fn printed_domain_is_read()
    ensures { (d : DomainDef) → IsDomain d → domain_in (domain_tree d) ≡ Ok d }
{}

/// The tree that a device is printed as is, by the tables, that very device.
pub fn printed_device_is_read()
    ensures { (d : DeviceDef) → IsDevice d → device_in (device_tree d) ≡ Ok d }
{}
