// What is printed reads back, as a text.
ghost use Rattle.types_base.specs.declared.device_def.DeviceDef.{DeviceDef};
ghost use Rattle.types_base.specs.declared.domain_def.DomainDef.{DomainDef};
ghost use Rattle.text_spec.specs.DevicePrinted.{device_tree};
ghost use Rattle.text_spec.specs.DomainPrinted.{domain_tree};
ghost use Rattle.text_spec.specs.Written.{written};
ghost use Rattle.std.specs.Prelude.{ℕ, List};
ghost use Rattle.text_spec.specs.Fill.{IsFilled, IsDeviceFilled};
ghost use Rattle.text_laws.specs.ReadsAs.{ReadsAsDomain, ReadsAsDevice, IsSound, IsSoundDevice};

use crate::sound::{
    filled_device_is_sound, filled_domain_is_sound, read_device_is_sound, read_domain_is_sound,
};
use text_spec::written_reads_back;

/// The text that a domain is printed as reads as that very domain.
pub fn printed_domain_reads_back()
    ensures { (d : DomainDef) → IsSound d → ReadsAsDomain (written (domain_tree d)) d }
{
    written_reads_back();
}

/// The text that a device is printed as reads as that very device.
pub fn printed_device_reads_back()
    ensures { (d : DeviceDef) → IsSoundDevice d → ReadsAsDevice (written (device_tree d)) d }
{
    written_reads_back();
}

/// The domain that a text reads as is what the text reads as that is printed of it, and so is that
/// domain once it is filled in.
pub fn read_domain_reads_back()
    ensures as_it_stands { (text : List ℕ) → (d : DomainDef) → ReadsAsDomain text d
        → ReadsAsDomain (written (domain_tree d)) d }
    ensures filled { (text : List ℕ) → (d f : DomainDef) → ReadsAsDomain text d → IsFilled d f
        → ReadsAsDomain (written (domain_tree f)) f }
{
    read_domain_is_sound();
    filled_domain_is_sound();
    printed_domain_reads_back();
}

/// The same of a device.
pub fn read_device_reads_back()
    ensures as_it_stands { (text : List ℕ) → (d : DeviceDef) → ReadsAsDevice text d
        → ReadsAsDevice (written (device_tree d)) d }
    ensures filled { (text : List ℕ) → (d f : DeviceDef) → ReadsAsDevice text d → IsDeviceFilled d f
        → ReadsAsDevice (written (device_tree f)) f }
{
    read_device_is_sound();
    filled_device_is_sound();
    printed_device_reads_back();
}
