// Faults at a path.
ghost use Rattle.xml_tables.specs.Rows.{IsFaultAt};

use std::alloc::Global;
use text_spec::{DefFault, DefKind};
use types_base::{NoMemory, OrNoMemory, Text};

/// The fault of this kind at this path, or that there is no memory for it.
pub fn fault_at_path(alloc: Global, path: &str, kind: DefKind) -> OrNoMemory<DefFault>
    ensures { IsFaultAt path.now kind result }
{
    match Text::copy_of(alloc, path) {
        Ok(path) => OrNoMemory::Fault(DefFault { path, kind }),
        Err(NoMemory) => OrNoMemory::NoMemory,
    }
}
