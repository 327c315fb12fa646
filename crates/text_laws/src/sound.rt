// What is read is sound, and stays so once it is filled in.
ghost use Rattle.std.specs.Prelude.{ℕ, List};
ghost use Rattle.types_base.specs.declared.device_def.DeviceDef.{DeviceDef};
ghost use Rattle.types_base.specs.declared.domain_def.DomainDef.{DomainDef};
ghost use Rattle.text_spec.specs.Fill.{IsFilled, IsDeviceFilled};
ghost use Rattle.text_laws.specs.ReadsAs.{ReadsAsDomain, ReadsAsDevice, IsSound, IsSoundDevice};

/// The domain that a text reads as is sound.
pub fn read_domain_is_sound()
    ensures { (text : List ℕ) → (d : DomainDef) → ReadsAsDomain text d → IsSound d }
{}

/// The device that a text reads as is sound.
pub fn read_device_is_sound()
    ensures { (text : List ℕ) → (d : DeviceDef) → ReadsAsDevice text d → IsSoundDevice d }
{}

/// A sound domain stays sound once it is filled in.
pub fn filled_domain_is_sound()
    ensures { (d f : DomainDef) → IsSound d → IsFilled d f → IsSound f }
{}

/// A sound device stays sound once it is filled in.
pub fn filled_device_is_sound()
    ensures { (d f : DeviceDef) → IsSoundDevice d → IsDeviceFilled d f → IsSoundDevice f }
{}
