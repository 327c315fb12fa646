// The one text of a definition.
ghost use Rattle.std.specs.Prelude.{◌≡◌, IfOk};
ghost use Rattle.xml_tables.specs.Below.text_laws.ReadsAs.{IsSound, IsSoundDevice, ReadsAsDevice, ReadsAsDomain};
ghost use Rattle.text_spec.specs.DevicePrinted as spec_device;
ghost use Rattle.text_spec.specs.DomainPrinted as spec_domain;
ghost use Rattle.text_spec.specs.Written.{written};

use crate::{Absent, device_tree, domain_tree};
use markup::write_tree;
use std::alloc::Global;
use virt_types::{DeviceDef, DomainDef, NoMemory, Text};
use xml_tables::{printed_device_reads_back, printed_domain_reads_back};

/// The text of a definition: one element a line, two blanks a level, elements and attributes in the
/// order of their tables, values in single quotes; what has a default is printed, what is absent
/// isn't. A sound definition, as each one that is read, is what its text reads as, so that the text
/// is printed of it again.
pub fn print_domain(alloc: Global, def: &DomainDef) -> Result<Text, NoMemory>
    ensures spelling { IfOk result (λ text. text ≡ written (spec_domain.domain_tree def.now)) }
    ensures reads_back { IfOk result (λ text. IsSound def.now → ReadsAsDomain text def.now) }
{
    printed_domain_reads_back();
    let tree = domain_tree(alloc, def, Absent::Omitted)?;
    write_tree(alloc, &tree)
}

/// The text of a device, by the same rules.
pub fn print_device(alloc: Global, device: &DeviceDef) -> Result<Text, NoMemory>
    ensures spelling { IfOk result (λ text. text ≡ written (spec_device.device_tree device.now)) }
    ensures reads_back { IfOk result
        (λ text. IsSoundDevice device.now → ReadsAsDevice text device.now) }
{
    printed_device_reads_back();
    let tree = device_tree(alloc, device, Absent::Omitted)?;
    write_tree(alloc, &tree)
}
