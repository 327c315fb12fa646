// Tests of devices one after another.
ghost use Rattle.std.specs.Prelude.{◌≡◌, ◌∷◌, ℕ, List, [], ◌++◌, filter, map, IfOk};
ghost use Rattle.text_spec.specs.DeviceList as spec;
ghost use Rattle.text_spec.specs.Look.{all_of, is_element as is_named};
ghost use Rattle.text_spec.specs.Tree.{seen};
ghost use Rattle.text_spec.specs.Tests.{Tests};
ghost use Rattle.device_xml.specs.Keys.{Holds};

use crate::keys::{add_key, key_in};
use crate::table::{element_for, key_element, rows_for};
use std::alloc::Global;
use std::collections::BTreeSet;
use text_spec::{DefFault, DefKind, DeviceKind, ElementName, Place, Tree};
use types_base::OrNoMemory;
use xml_tables::{fault_at, is_element, rows_test};

/// Tests the key of a device against those that were met, and adds it.
fn key_test(
    alloc: Global,
    kind: DeviceKind,
    names: &[ElementName],
    keys: &mut BTreeSet<String>,
    tree: &Tree,
) -> Result<(), OrNoMemory<DefFault>>
    ensures test { (met : List (List ℕ)) → Holds keys.old met → Tests result
        (spec.key_fault kind names.now met (spec.key_in kind (seen tree.now))) }
    ensures keys { IfOk result (λ _. (met : List (List ℕ)) → Holds keys.old met
        → Holds keys.new (spec.with_key (spec.key_in kind (seen tree.now)) met)) }
{
    let Some(key) = key_in(alloc, kind, tree)? else {
        return Ok(());
    };
    if add_key(keys, key)? {
        return Ok(());
    }
    let place = Place::Child(key_element(kind));
    Err(OrNoMemory::Fault(fault_at(alloc, names, place, DefKind::BadValue)?))
}

/// Tests a device by its table, and then its key.
#[tactic(auto, unfolding(text_spec::specs::DeviceList::device_fault))]
fn device_test(
    alloc: Global,
    kind: DeviceKind,
    names: &[ElementName],
    keys: &mut BTreeSet<String>,
    tree: &Tree,
) -> Result<(), OrNoMemory<DefFault>>
    ensures test { (met : List (List ℕ)) → Holds keys.old met → Tests result
        (spec.device_fault kind names.now met (seen tree.now)) }
    ensures keys { IfOk result (λ _. (met : List (List ℕ)) → Holds keys.old met
        → Holds keys.new (spec.with_key (spec.key_in kind (seen tree.now)) met)) }
{
    rows_test(alloc, names, rows_for(kind), tree)?;
    key_test(alloc, kind, names, keys, tree)
}

#[tactic(auto, unfolding(text_spec::specs::DeviceList::devices_fault))]
fn all_tests(
    alloc: Global,
    kind: DeviceKind,
    names: &[ElementName],
    trees: &[Tree],
) -> Result<(), OrNoMemory<DefFault>>
    ensures { Tests result (spec.devices_fault kind names.now []
        (filter (is_named (spec.element_for kind)) (map seen trees.now))) }
{
    let mut keys = BTreeSet::new(alloc);
    let mut rest = trees;
    while let Some((tree, after)) = rest.split_first() {
        if is_element(element_for(kind), tree) {
            match device_test(alloc, kind, names, &mut keys, tree) {
                Ok(()) => {}
                Err(fault) => return Err(fault),
            }
        }
        rest = after;
    }
    Ok(())
}

/// Tests the devices of a kind in an element, each of which these names lead to: by
/// their table, and that none has the key of an earlier one.
#[tactic(auto, using(text_spec::proofs::Seen::children_seen), unfolding(text_spec::specs::Look::all_of))]
pub fn devices_test(
    alloc: Global,
    kind: DeviceKind,
    names: &[ElementName],
    tree: &Tree,
) -> Result<(), OrNoMemory<DefFault>>
    ensures { Tests result (spec.devices_fault kind names.now []
        (all_of (spec.element_for kind) (seen tree.now))) }
{
    all_tests(alloc, kind, names, tree.children.as_slice())
}
