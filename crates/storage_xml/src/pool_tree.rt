// The trees of pools.
ghost use Rattle.std.specs.Prelude.{◌≡◌, IfOk};
ghost use Rattle.text_spec.specs.Tree.{seen};
ghost use Rattle.storage_xml.specs.PoolText as spec;

use std::alloc::Global;
use text_spec::{PairList, Tree};
use types_base::{NoMemory, PoolDef, Uuid};
use xml_print::tree_fits;
use xml_tables::{add, add_uuid, push_worth, size_tree, spelled, worded};

fn target_tree(alloc: Global, path: &str) -> Result<Tree, NoMemory>
    ensures { IfOk result (λ t. seen t ≡ spec.target_tree path.now) }
{
    let mut children = Vec::new(alloc);
    add(&mut children, worded(alloc, "path", path)?)?;
    spelled(alloc, "target", PairList::new(alloc), "", children)
}

/// A pool with this identifier in place of its own.
#[tactic(auto, unfolding(crate::specs::PoolText::pool_tree))]
pub(crate) fn pool_tree(alloc: Global, def: &PoolDef, uuid: Option<Uuid>) -> Result<Tree, NoMemory>
    ensures { IfOk result (λ t. seen t ≡ spec.pool_tree (record def.now { uuid = uuid })) }
{
    let mut attributes = PairList::new(alloc);
    push_worth(alloc, &mut attributes, "type", "dir")?;
    let mut children = Vec::new(alloc);
    add(&mut children, worded(alloc, "name", def.name.as_str())?)?;
    add_uuid(alloc, &mut children, uuid)?;
    add(&mut children, size_tree(alloc, "capacity", def.capacity)?)?;
    add(&mut children, target_tree(alloc, def.path.as_str())?)?;
    spelled(alloc, "pool", attributes, "", children)
}

/// Whether the text of a pool, once it has an identifier, is within the limits of a text.
#[tactic(auto, unfolding(crate::specs::PoolText::pool_fits))]
pub(crate) fn pool_fits(alloc: Global, def: &PoolDef) -> Result<bool, NoMemory>
    ensures { IfOk result (λ fits. fits ≡ spec.pool_fits def.now) }
{
    let uuid = def.uuid.unwrap_or(Uuid::nil());
    let tree = pool_tree(alloc, def, Some(uuid))?;
    Ok(tree_fits(&tree))
}
