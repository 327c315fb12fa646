// What is known of entries and changes by their types.
ghost use Rattle.store_spec.specs.declared.version.Version.TheVariants as version;
ghost use Rattle.store_spec.specs.DefinitionFile.{IsEntryOf};
ghost use Rattle.store_spec.specs.Steps.{IsChange};
ghost use Rattle.def_keeper.specs.Calls.{CanBeMade, CanBePut};

use store_reading::known_uuid;
use store_spec::{Change, Entry};

/// An entry with a title in one line and a text within the limit can be in a file.
pub(crate) fn known_entry(entry: &Entry)
    requires { CanBePut entry.now }
    ensures { IsEntryOf version.Two entry.now }
{
    let _name = entry.name.as_bytes();
    let _title = entry.title.as_str();
    let _text = entry.text.as_str();
}

/// A change of such an entry is one that files can express.
pub(crate) fn known_change(change: &Change)
    requires { CanBeMade change.now }
    ensures { IsChange change.now }
{
    match change {
        Change::Put { uuid, entry, .. } => {
            known_uuid(uuid);
            known_entry(entry);
        }
        Change::Drop { uuid, .. } => known_uuid(uuid),
    }
}
