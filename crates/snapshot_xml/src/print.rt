// The texts of snapshots.
ghost use Rattle.std.specs.Prelude.{◌≡◌, IfOk};
ghost use Rattle.text_spec.specs.Written.{written};
ghost use Rattle.snapshot_xml.specs.ReadsAs.{IsSoundInfo, IsSoundSnapshot, ReadsAsSnapshot};
ghost use Rattle.snapshot_xml.specs.SnapshotText as spec;

use crate::laws::{kept_snapshot_reads_back, printed_snapshot_reads_back};
use crate::tree::{info_tree, kept_tree};
use std::alloc::Global;
use virt_types::{NoMemory, Snap, SnapInfo, Text};
use xml_print::write_tree;

/// The text of what a caller says of a snapshot: one element a line, two blanks a level, and nothing
/// for what is absent. What is sound, as all that is read, is what its text reads as.
pub fn print_snapshot(alloc: Global, info: &SnapInfo) -> Result<Text, NoMemory>
    ensures spelling { IfOk result (λ text. text ≡ written (spec.info_tree info.now)) }
    ensures reads_back { IfOk result
        (λ text. IsSoundInfo info.now → ReadsAsSnapshot text info.now) }
{
    printed_snapshot_reads_back();
    let tree = info_tree(alloc, info)?;
    write_tree(alloc, &tree)
}

/// The text of a snapshot that is kept, by the same rules: its name, its description where it is not
/// empty, what its guest did, and the name of its parent where it has one. Reading passes the last
/// two over.
pub fn print_kept(alloc: Global, snap: &Snap) -> Result<Text, NoMemory>
    ensures spelling { IfOk result (λ text. text ≡ written (spec.kept_tree snap.now)) }
    ensures reads_back { IfOk result
        (λ text. IsSoundSnapshot snap.now → ReadsAsSnapshot text (spec.info_of snap.now)) }
{
    kept_snapshot_reads_back();
    let tree = kept_tree(alloc, snap)?;
    write_tree(alloc, &tree)
}
