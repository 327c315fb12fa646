// Devices in their slots.
ghost use Rattle.std.specs.Prelude.{◌≡◌, IfOk, drop, map, slice_get};
ghost use Rattle.text_spec.specs.Tree.{element, seen, trees};
ghost use Rattle.xml_print.specs.Last as spec_last;
ghost use Rattle.xml_print.specs.LiveText as spec;

use crate::address::address_tree;
use std::alloc::Global;
use text_spec::{ElementName, PairList, Tree};
use virt_types::{NoMemory, Text};
use xml_tables::is_element;

/// An element of these parts.
pub(crate) fn renewed(name: Text, attributes: PairList, text: Text, children: Vec<Tree>) -> Tree
    ensures { seen result ≡ element name attributes text (trees (map seen children.items)) }
{
    Tree {
        name,
        attributes,
        text,
        children,
    }
}

/// An element with one more at its end.
#[tactic(auto, using(crate::proofs::Rebuilt::last_put))]
fn with_last(tree: Tree, last: Tree) -> Result<Tree, NoMemory>
    ensures { IfOk result (λ t. seen t ≡ spec.with_last (seen last) (seen tree)) }
{
    let Tree {
        name,
        attributes,
        text,
        mut children,
    } = tree;
    children.push(last)?;
    Ok(renewed(name, attributes, text, children))
}

/// A device in its slot, if it has one.
fn in_slot(alloc: Global, tree: Tree, slot: Option<u32>) -> Result<Tree, NoMemory>
    ensures { IfOk result (λ t. seen t ≡ spec.in_slot slot (seen tree)) }
{
    match slot {
        Some(slot) => {
            let address = address_tree(alloc, slot)?;
            with_last(tree, address)
        }
        None => Ok(tree),
    }
}

/// Whether a device has a slot.
fn has_slot(tree: &Tree) -> bool
    ensures { result ≡ spec.has_slot (seen tree.now) }
{
    is_element(ElementName::Disk, tree) || is_element(ElementName::Interface, tree)
}

/// The next slot, and those after it.
fn next_slot(slots: &[u32]) -> (Option<u32>, &[u32])
    ensures slot { result.0 ≡ slice_get slots.now 0 }
    ensures others { result.1.now ≡ drop 1 slots.now }
{
    match slots.split_first() {
        Some((slot, others)) => (Some(*slot), others),
        None => (None, slots),
    }
}

/// A device, which is in the next slot if it has one, and the slots that are left.
fn next_device<'a>(
    alloc: Global,
    tree: Tree,
    slots: &'a [u32],
) -> Result<(Tree, &'a [u32]), NoMemory>
    ensures tree { IfOk result (λ r. seen r.0 ≡ spec.next_device slots.now (seen tree)) }
    ensures slots { IfOk result (λ r. r.1.now ≡ spec.next_slots slots.now (seen tree)) }
{
    if has_slot(&tree) {
        let (slot, others) = next_slot(slots);
        Ok((in_slot(alloc, tree, slot)?, others))
    } else {
        Ok((tree, slots))
    }
}

/// Devices, of which those that have slots take these in order.
#[tactic(auto, unfolding(crate::specs::LiveText::in_slots))]
fn in_slots(alloc: Global, devices: Vec<Tree>, slots: &[u32]) -> Result<Vec<Tree>, NoMemory>
    ensures { IfOk result (λ out. map seen out.items
        ≡ spec.in_slots slots.now (map seen devices.items)) }
{
    let mut out = Vec::new(alloc);
    let mut rest = slots;
    for tree in devices {
        let (device, after) = next_device(alloc, tree, rest)?;
        out.push(device)?;
        rest = after;
    }
    Ok(out)
}

/// The element of the devices with its devices in their slots; any other element as it is.
#[tactic(auto, using(crate::proofs::Rebuilt::devices_put), unfolding(crate::specs::Last::devices_in_slots))]
pub(crate) fn devices_in_slots(alloc: Global, tree: Tree, slots: &[u32]) -> Result<Tree, NoMemory>
    ensures { IfOk result (λ t. seen t ≡ spec_last.devices_in_slots slots.now (seen tree)) }
{
    if !is_element(ElementName::Devices, &tree) {
        return Ok(tree);
    }
    let Tree {
        name,
        attributes,
        text,
        children,
    } = tree;
    let children = in_slots(alloc, children, slots)?;
    Ok(renewed(name, attributes, text, children))
}
