// Volumes, read and printed.
ghost use Rattle.std.specs.Prelude.{◌≡◌, IfOk, codes, option_map, unwrap_or};
ghost use Rattle.text_spec.specs.Tree.{seen};
ghost use Rattle.text_spec.specs.Written.{written};
ghost use Rattle.types_base.specs.Memory.{UnlessNoMemory};
ghost use Rattle.storage_xml.specs.ReadsAs.{IsSoundVolume, ReadsAsVolume};
ghost use Rattle.storage_xml.specs.VolumeText as spec;

use crate::laws::printed_volume_reads_back;
use crate::volume_tree::volume_tree;
use markup::write_tree;
use std::alloc::Global;
use text_spec::{DefFault, DefKind, Tree};
use types_base::{NoMemory, OrNoMemory, Text, TryCopy, VolDef};
use xml_print::tree_fits;
use xml_tables::{
    fault_of_root, first_called, is_called, needed_name, needed_size, optional_size, text_called,
    value_called,
};

#[tactic(auto, unfolding(crate::specs::VolumeText::format_in))]
fn format_value(tree: &Tree) -> Option<&Text>
    ensures { option_map (λ t. t.now) result ≡ spec.format_in (seen tree.now) }
{
    match first_called("target", tree) {
        Some(target) => match first_called("format", target) {
            Some(format) => value_called("type", format),
            None => None,
        },
        None => None,
    }
}

fn format_in(alloc: Global, tree: &Tree) -> Result<Text, NoMemory>
    ensures { IfOk result (λ t. t ≡ unwrap_or (spec.format_in (seen tree.now)) (codes "raw")) }
{
    match format_value(tree) {
        Some(format) => format.copy(),
        None => Text::copy_of(alloc, "raw"),
    }
}

/// What the element of a volume says.
#[tactic(auto, unfolding(crate::specs::VolumeText::volume_of))]
fn volume_of(alloc: Global, tree: &Tree) -> Result<VolDef, OrNoMemory<DefFault>>
    ensures { UnlessNoMemory result (spec.volume_of (seen tree.now)) }
{
    let name = match needed_name(alloc, "/volume/name", text_called("name", tree)) {
        Ok(name) => name,
        Err(fault) => return Err(fault),
    };
    let capacity = match needed_size(alloc, "/volume/capacity", first_called("capacity", tree)) {
        Ok(capacity) => capacity,
        Err(fault) => return Err(fault),
    };
    let allocation = match optional_size(
        alloc,
        "/volume/allocation",
        first_called("allocation", tree),
    ) {
        Ok(allocation) => allocation.unwrap_or(capacity),
        Err(fault) => return Err(fault),
    };
    match format_in(alloc, tree) {
        Ok(format) => Ok(VolDef {
            name,
            capacity,
            allocation,
            format,
        }),
        Err(NoMemory) => Err(OrNoMemory::NoMemory),
    }
}

/// What a tree says of a volume, whatever the length of its own text.
#[tactic(auto, unfolding(crate::specs::VolumeText::volume_in))]
fn volume_in(alloc: Global, tree: &Tree) -> Result<VolDef, OrNoMemory<DefFault>>
    ensures { UnlessNoMemory result (spec.volume_in (seen tree.now)) }
{
    if is_called("volume", tree) {
        volume_of(alloc, tree)
    } else {
        let fault = fault_of_root(alloc, DefKind::Root, tree)?;
        Err(OrNoMemory::Fault(fault))
    }
}

#[tactic(auto, unfolding(crate::specs::VolumeText::volume_fits))]
fn volume_fits(alloc: Global, def: &VolDef) -> Result<bool, NoMemory>
    ensures { IfOk result (λ fits. fits ≡ spec.volume_fits def.now) }
{
    Ok(tree_fits(&volume_tree(alloc, def)?))
}

/// What a tree says of a volume: its `name`, its `capacity` and `allocation` in bytes, and the `type` of
/// its `target/format`. All else is passed over. Without an allocation it takes its capacity; without a
/// format it is `raw`.
///
/// The fault is the first in that order: another root element, a value that is missing or none, a size
/// above 2^60. It is `TooLong`, with the root's path, where the volume's own text would pass the limits
/// of a text.
///
/// What is read of the tree of a whole text is sound (`read_volume_is_sound`), so that it reads back
/// from the text that is printed of it.
#[tactic(auto, unfolding(crate::specs::VolumeText::volume_read))]
pub fn read_volume(alloc: Global, tree: &Tree) -> Result<VolDef, OrNoMemory<DefFault>>
    ensures { UnlessNoMemory result (spec.volume_read (seen tree.now)) }
{
    let def = match volume_in(alloc, tree) {
        Ok(def) => def,
        Err(fault) => return Err(fault),
    };
    if volume_fits(alloc, &def)? {
        return Ok(def);
    }
    let fault = fault_of_root(alloc, DefKind::TooLong, tree)?;
    Err(OrNoMemory::Fault(fault))
}

/// The text of a volume: one element a line, two blanks a level. What is sound, as all that is read, is
/// what its text reads as.
pub fn print_volume(alloc: Global, def: &VolDef) -> Result<Text, NoMemory>
    ensures spelling { IfOk result (λ text. text ≡ written (spec.volume_tree def.now)) }
    ensures reads_back { IfOk result (λ text. IsSoundVolume def.now → ReadsAsVolume text def.now) }
{
    printed_volume_reads_back();
    let tree = volume_tree(alloc, def)?;
    write_tree(alloc, &tree)
}
