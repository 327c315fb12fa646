// Values as they are printed.
ghost use Rattle.std.specs.Prelude.{◌≡◌, ◌++◌, IfOk, OnOk, map, option_map};
ghost use Rattle.std.specs.Option.{option_to_list};
ghost use Rattle.text_spec.specs.Tree.{seen};
ghost use Rattle.xml_tables.specs.Values as spec;

use crate::{add, push_worth, spelled, worded};
use std::alloc::Global;
use text_spec::{PairList, Tree};
use types_base::{NoMemory, Uuid};

fn uuid_tree(alloc: Global, uuid: Uuid) -> Result<Tree, NoMemory>
    ensures { IfOk result (λ t. seen t ≡ spec.uuid_tree uuid) }
{
    let mut buffer = Uuid::encode_buffer();
    let text = uuid.hyphenated().encode_lower(&mut buffer);
    worded(alloc, "uuid", text)
}

/// Adds the element of an identifier, where there is one.
pub fn add_uuid(alloc: Global, out: &mut Vec<Tree>, uuid: Option<Uuid>) -> Result<(), NoMemory>
    ensures { OnOk result (map seen out.new.items ≡ map seen out.old.items
        ++ option_to_list (option_map spec.uuid_tree uuid)) }
{
    match uuid {
        Some(uuid) => add(out, uuid_tree(alloc, uuid)?),
        None => Ok(()),
    }
}

/// The element of a size in bytes.
pub fn size_tree(alloc: Global, word: &str, bytes: u64) -> Result<Tree, NoMemory>
    ensures { IfOk result (λ t. seen t ≡ spec.size_tree word.now bytes) }
{
    let text = format!(in alloc; "{bytes}")?;
    let mut attributes = PairList::new(alloc);
    push_worth(alloc, &mut attributes, "unit", "bytes")?;
    spelled(alloc, word, attributes, text.as_str(), Vec::new(alloc))
}
