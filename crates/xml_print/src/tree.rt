// The tree of a running domain.
ghost use Rattle.std.specs.Prelude.{◌≡◌, IfOk, map};
ghost use Rattle.text_spec.specs.Tree.{seen};
ghost use Rattle.xml_print.specs.Last as spec_last;
ghost use Rattle.xml_print.specs.LiveText as spec;

use crate::running_devices::{devices_in_slots, renewed};
use crate::{Absent, domain_tree};
use std::alloc::Global;
use text_spec::Tree;
use virt_types::{Live, NoMemory};

/// The devices of a domain in their slots. Their element is the last one of the domain's, if there
/// are any.
#[tactic(auto, using(crate::proofs::Lasts::put_back, crate::proofs::Lasts::none_last))]
fn last_in_slots(
    alloc: Global,
    mut children: Vec<Tree>,
    slots: &[u32],
) -> Result<Vec<Tree>, NoMemory>
    ensures { IfOk result (λ out. map seen out.items
        ≡ spec_last.last_in_slots slots.now (map seen children.items)) }
{
    match children.pop() {
        Some(last) => {
            children.push(devices_in_slots(alloc, last, slots)?)?;
            Ok(children)
        }
        None => Ok(children),
    }
}

/// The tree of a running domain.
#[tactic(auto, using(crate::proofs::Lasts::live_of))]
pub(crate) fn live_tree(alloc: Global, live: &Live) -> Result<Tree, NoMemory>
    ensures { IfOk result (λ t. seen t ≡ spec.live_tree live.now) }
{
    let Tree {
        name,
        attributes,
        text,
        children,
    } = domain_tree(alloc, &live.def, Absent::Omitted)?;
    let children = last_in_slots(alloc, children, live.slots.as_slice())?;
    Ok(renewed(name, attributes, text, children))
}
