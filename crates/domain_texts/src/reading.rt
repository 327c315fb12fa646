// The definition that a text is.
ghost use Rattle.std.specs.Prelude.{◌≡◌, IfOk};
ghost use Rattle.session_spec.specs.DefinitionText.{definition_in};
ghost use Rattle.session_spec.specs.Refused.{at_place};
ghost use Rattle.types_base.specs.Memory.{UnlessNoMemory};

use domain_xml::{read, read_tree};
use std::alloc::Global;
use types_base::{DomainDef, NoMemory, OrNoMemory, Text};

fn at_text(alloc: Global, at: u64) -> Result<Text, NoMemory>
    ensures { IfOk result (λ kept. kept ≡ at_place at) }
{
    Ok(Text::of(format!(in alloc; "at {at}")?))
}

/// The definition that a text is, or what the refusal keeps: the place where the text leaves the grammar, or the
/// path of the element at which it is no definition.
pub fn read_domain(alloc: Global, text: &[u8]) -> Result<DomainDef, OrNoMemory<Text>>
    ensures { UnlessNoMemory result (definition_in text.now) }
{
    match read_tree(alloc, text) {
        Ok(tree) => match read(alloc, &tree) {
            Ok(def) => Ok(def),
            Err(OrNoMemory::Fault(fault)) => Err(OrNoMemory::Fault(fault.path)),
            Err(OrNoMemory::NoMemory) => Err(OrNoMemory::NoMemory),
        },
        Err(OrNoMemory::Fault(fault)) => match at_text(alloc, fault.at) {
            Ok(kept) => Err(OrNoMemory::Fault(kept)),
            Err(NoMemory) => Err(OrNoMemory::NoMemory),
        },
        Err(OrNoMemory::NoMemory) => Err(OrNoMemory::NoMemory),
    }
}
