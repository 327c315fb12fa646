// How a snapshot is deleted, alone or with those that come from it.
ghost use Rattle.std.specs.Prelude.{◌≡◌, All, IfOk, drop, length, map, not, option_map};
ghost use Rattle.domain_spec.specs.CallResult.{snapshot_deleted};
ghost use Rattle.domain_spec.specs.Snapshots.{comes_from, current_in, is_met, is_named, without_snapshot};
ghost use Rattle.domain_spec.specs.Types.state;
ghost use Rattle.snapshot_core.specs.Deletion.{FitsDeletion, FitsOthers, parent_named};

use std::alloc::Global;
use virt_types::{Domain, ListOf, Name, NoMemory, Snap, SnapList, TryCopy};

/// What becomes of the snapshots that come from the deleted one.
#[derive(Drop)]
pub enum Others {
    /// Its children get its parent: a copy of that for each of them.
    Adopted(ListOf<Option<Name>>),
    /// They go with it: for each snapshot, by rising name, whether it stays.
    Flagged(ListOf<bool>),
}

/// What the deletion of a snapshot needs, so that it takes no memory.
#[derive(Drop)]
pub struct Deletion {
    /// The parent of the deleted one, which is current where the current one goes.
    pub parent: Option<Name>,
    /// What becomes of the others.
    pub others: Others,
}

fn parent_named<'a>(snaps: &'a SnapList, name: &Name) -> Option<&'a Name>
    ensures { option_map (λ parent. parent.now) result ≡ parent_named snaps.now name.now }
{
    match snaps.find(name) {
        None => None,
        Some(snap) => snap.parent.as_ref(),
    }
}

fn is_named(name: &Name, snap: &Snap) -> bool
    ensures { result ≡ is_named name.now snap.now }
{
    snap.name.as_bytes() == name.as_bytes()
}

// Whether this name is met on the way from a parent to its parents, after so many steps.
fn is_met(snaps: &SnapList, name: &Name, parent: Option<&Name>, steps: usize) -> bool
    ensures { result ≡ is_met (drop steps snaps.now) snaps.now name.now (option_map (λ p. p.now) parent.entry) }
{
    if steps >= snaps.len() {
        return false;
    }
    match parent {
        None => false,
        Some(parent) => {
            parent.as_bytes() == name.as_bytes()
                || is_met(snaps, name, parent_named(snaps, parent), steps + 1)
        }
    }
}

fn comes_from(snaps: &SnapList, name: &Name, snap: &Snap) -> bool
    ensures { result ≡ comes_from snaps.now name.now snap.now }
{
    is_named(name, snap) || is_met(snaps, name, snap.parent.as_ref(), 0)
}

// For each snapshot whether it stays where one goes with all that come from it.
fn flags(alloc: Global, snaps: &SnapList, name: &Name) -> Result<ListOf<bool>, NoMemory>
    ensures { IfOk result (λ flags. flags ≡ map (λ snap. not (comes_from snaps.now name.now snap)) snaps.now) }
{
    let mut flags = Vec::with_capacity(alloc, snaps.len())?;
    for place in 0..snaps.len() {
        match snaps.get(place) {
            None => {}
            Some(snap) => flags.push(!comes_from(snaps, name, snap))?,
        }
    }
    Ok(ListOf::of(flags))
}

// So many copies of a parent.
fn copies(
    alloc: Global,
    parent: &Option<Name>,
    count: usize,
) -> Result<ListOf<Option<Name>>, NoMemory>
    ensures same { IfOk result (λ copies. All (λ copy. copy ≡ parent.now) copies) }
    ensures count { IfOk result (λ copies. length copies ≡ count) }
{
    let mut copies = Vec::with_capacity(alloc, count)?;
    for _at in 0..count {
        copies.push(parent.copy()?)?;
    }
    Ok(ListOf::of(copies))
}

fn others_for(
    alloc: Global,
    snaps: &SnapList,
    parent: &Option<Name>,
    name: &Name,
    children: bool,
) -> Result<Others, NoMemory>
    requires { parent.now ≡ parent_named snaps.now name.now }
    ensures { IfOk result (λ others. FitsOthers others snaps.now name.now children) }
{
    if children {
        Ok(Others::Flagged(flags(alloc, snaps, name)?))
    } else {
        Ok(Others::Adopted(copies(alloc, parent, snaps.count_children(name))?))
    }
}

fn copied_parent(snaps: &SnapList, name: &Name) -> Result<Option<Name>, NoMemory>
    ensures { IfOk result (λ parent. parent ≡ parent_named snaps.now name.now) }
{
    match snaps.find(name) {
        None => Ok(None),
        Some(snap) => snap.parent.copy(),
    }
}

impl Deletion {
    /// What the deletion of the snapshot of this name needs.
    pub(crate) fn new(
        alloc: Global,
        snaps: &SnapList,
        name: &Name,
        children: bool,
    ) -> Result<Deletion, NoMemory>
        ensures { IfOk result (λ deletion. FitsDeletion deletion snaps.now name.now children) }
    {
        let parent = copied_parent(snaps, name)?;
        let others = others_for(alloc, snaps, &parent, name, children)?;
        Ok(Deletion { parent, others })
    }
}

// The snapshots that stay.
fn leave_others(
    snaps: &mut SnapList,
    name: &Name,
    children: bool,
    parent: &Option<Name>,
    others: Others,
)
    requires parent { parent.now ≡ parent_named snaps.old name.now }
    requires others { FitsOthers others snaps.old name.now children }
    ensures { snaps.new ≡ without_snapshot snaps.old name.now children }
{
    match others {
        Others::Adopted(copies) => {
            snaps.remove(name);
            snaps.adopt(name, parent, copies);
        }
        Others::Flagged(flags) => snaps.keep(flags.as_slice()),
    }
}

// The current snapshot, where it is still there.
fn leave_current(current: &mut Option<Name>, left: &SnapList, parent: Option<Name>)
    ensures { current.new ≡ current_in left.now current.old parent }
{
    if let Some(name) = &*current {
        if left.find(name).is_none() {
            *current = parent;
        }
    }
}

/// Deletes the snapshot of this name.
pub(crate) fn delete(domain: &mut Domain, name: &Name, children: bool, deletion: Deletion)
    requires { FitsDeletion deletion domain.old.snaps name.now children }
    ensures { state.Held domain.new ≡ (snapshot_deleted domain.old name.now children).state }
{
    let Deletion { parent, others } = deletion;
    leave_others(&mut domain.snaps, name, children, &parent, others);
    leave_current(&mut domain.current, &domain.snaps, parent);
}
