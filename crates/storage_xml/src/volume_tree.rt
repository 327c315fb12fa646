// The trees of volumes.
ghost use Rattle.std.specs.Prelude.{◌≡◌, IfOk};
ghost use Rattle.text_spec.specs.Tree.{seen};
ghost use Rattle.storage_xml.specs.VolumeText as spec;

use std::alloc::Global;
use text_spec::{PairList, Tree};
use types_base::{NoMemory, VolDef};
use xml_tables::{add, push_worth, size_tree, spelled, worded};

fn format_tree(alloc: Global, format: &str) -> Result<Tree, NoMemory>
    ensures { IfOk result (λ t. seen t ≡ spec.format_tree format.now) }
{
    let mut attributes = PairList::new(alloc);
    push_worth(alloc, &mut attributes, "type", format)?;
    spelled(alloc, "format", attributes, "", Vec::new(alloc))
}

fn target_tree(alloc: Global, format: &str) -> Result<Tree, NoMemory>
    ensures { IfOk result (λ t. seen t ≡ spec.target_tree format.now) }
{
    let mut children = Vec::new(alloc);
    add(&mut children, format_tree(alloc, format)?)?;
    spelled(alloc, "target", PairList::new(alloc), "", children)
}

/// A volume.
#[tactic(auto, unfolding(crate::specs::VolumeText::volume_tree))]
pub(crate) fn volume_tree(alloc: Global, def: &VolDef) -> Result<Tree, NoMemory>
    ensures { IfOk result (λ t. seen t ≡ spec.volume_tree def.now) }
{
    let mut children = Vec::new(alloc);
    add(&mut children, worded(alloc, "name", def.name.as_str())?)?;
    add(&mut children, size_tree(alloc, "capacity", def.capacity)?)?;
    add(
        &mut children,
        size_tree(alloc, "allocation", def.allocation)?,
    )?;
    add(&mut children, target_tree(alloc, def.format.as_str())?)?;
    spelled(alloc, "volume", PairList::new(alloc), "", children)
}
