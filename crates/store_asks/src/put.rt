// The change that keeps a definition.
ghost use Rattle.std.specs.Prelude.{◌≡◌, IfOk};
ghost use Rattle.def_keeper.specs.Calls.{CanBeMade};
ghost use Rattle.store_asks.specs.Asks as spec;

use domain_texts::entry_of;
use std::alloc::Global;
use store_spec::{BookKind, Change};
use virt_types::{DomainDef, MOST_TEXT_BYTES, NoMemory, Uuid};

fn identifier(definition: &DomainDef) -> Uuid
    ensures { result ≡ spec.identifier definition.now }
{
    match definition.uuid {
        Some(uuid) => uuid,
        None => Uuid::nil(),
    }
}

/// The change that keeps a definition, with its title. One whose text is longer than a file may hold is taken as one
/// that there is no memory for.
pub(crate) fn put_of(
    alloc: Global,
    definition: &DomainDef,
    autostart: bool,
) -> Result<Change, NoMemory>
    ensures change { IfOk result (λ change. change ≡ spec.put_of definition.now autostart) }
    ensures made { IfOk result CanBeMade }
{
    let entry = entry_of(alloc, definition, autostart)?;
    if entry.text.len() > MOST_TEXT_BYTES {
        drop(entry);
        return Err(NoMemory);
    }
    Ok(Change::Put {
        kind: BookKind::Domain,
        uuid: identifier(definition),
        entry,
    })
}
