// Reading what a caller says of a snapshot.
ghost use Rattle.std.specs.Prelude.{◌≡◌, IfOk, codes};
ghost use Rattle.text_spec.specs.Tree.{seen};
ghost use Rattle.xml_tables.specs.Called.{text_called as text_in};
ghost use Rattle.virt_types.specs.Memory.{UnlessNoMemory};
ghost use Rattle.snapshot_xml.specs.Parts as parts;
ghost use Rattle.snapshot_xml.specs.SnapshotText as spec;

use crate::tree::info_tree;
use std::alloc::Global;
use text_spec::{DefFault, DefKind, Tree};
use virt_types::{Name, NoMemory, OrNoMemory, SnapInfo, Text, TryCopy, both};
use xml_print::tree_fits;
use xml_tables::{fault_of_root, is_called, text_called};

/// The name of a snapshot that has one.
fn name_in(alloc: Global, tree: &Tree) -> Result<Option<Name>, OrNoMemory<DefFault>>
    ensures { UnlessNoMemory result (parts.name_read (text_in (codes "name") (seen tree.now))) }
{
    let Some(text) = text_called("name", tree) else {
        return Ok(None);
    };
    match Name::read(alloc, text.as_bytes()) {
        Ok(name) => Ok(Some(name)),
        Err(OrNoMemory::Fault(_)) => {
            let path = Text::copy_of(alloc, "/domainsnapshot/name")?;
            let kind = DefKind::BadValue;
            Err(OrNoMemory::Fault(DefFault { path, kind }))
        }
        Err(OrNoMemory::NoMemory) => Err(OrNoMemory::NoMemory),
    }
}

fn description_in(tree: &Tree) -> Result<Option<Text>, NoMemory>
    ensures { IfOk result (λ text. text ≡ text_in (codes "description") (seen tree.now)) }
{
    match text_called("description", tree) {
        Some(text) => Ok(Some(text.copy()?)),
        None => Ok(None),
    }
}

/// What a tree says of a snapshot, whatever the length of its own text.
#[tactic(auto, using(crate::proofs::Names::named_and_described), unfolding(crate::specs::SnapshotText::snapshot_in))]
fn read_by_table(alloc: Global, tree: &Tree) -> Result<SnapInfo, OrNoMemory<DefFault>>
    ensures { UnlessNoMemory result (spec.snapshot_in (seen tree.now)) }
{
    if !is_called("domainsnapshot", tree) {
        let fault = fault_of_root(alloc, DefKind::Root, tree)?;
        return Err(OrNoMemory::Fault(fault));
    }
    let name = match name_in(alloc, tree) {
        Ok(name) => name,
        Err(fault) => return Err(fault),
    };
    let description = description_in(tree)?;
    Ok(SnapInfo { name, description })
}

/// What a tree says of a snapshot: the texts of the first `name` and the first `description` in
/// `domainsnapshot`, where there are any. All else in it is passed over, `state` and
/// `parent` too.
///
/// The fault is another root element, or a name that is none. It is `TooLong`, with the root's path,
/// where the snapshot's own text would pass the limits of a text.
///
/// What is read of the tree of a whole text is sound (`read_snapshot_is_sound`), so that it reads
/// back from the text that is printed of it.
#[tactic(auto, unfolding(crate::specs::SnapshotText::snapshot_read))]
pub fn read(alloc: Global, tree: &Tree) -> Result<SnapInfo, OrNoMemory<DefFault>>
    ensures { UnlessNoMemory result (spec.snapshot_read (seen tree.now)) }
{
    let info = match read_by_table(alloc, tree) {
        Ok(info) => info,
        Err(fault) => return Err(fault),
    };
    if tree_fits(&info_tree(alloc, &info)?) {
        return Ok(info);
    }
    let fault = fault_of_root(alloc, DefKind::TooLong, tree)?;
    Err(OrNoMemory::Fault(fault))
}
