// Snapshots as a search tree of boxes, which contracts see as the list by rising name. A domain has at
// most 64 of them, so the tree is not balanced.
ghost use Rattle.std.specs.Prelude.{◌≡◌, ◌<◌, ◌^◌, [], ◌∷◌, ◌++◌, IfOk, OnOk, filter, is_ok, length, map, not, option_map, slice_get, if◌then◌else◌};
ghost use Rattle.virt_types.specs.Snapshots.{IsRising, is_before, is_named, snapshot_named, with_snapshot};

mod family;
mod new_snap;

use crate::domain::Snap;
pub use new_snap::NewSnap;
use std::alloc::Global;
use std::marker::Model;
use std::mem;
use types_base::{Boxed, ListOf, Name, NoMemory, TryCopy, both};

// The tree, or a part of it.
#[cycle(snapshots)]
#[derive(Drop)]
pub(crate) struct SnapTree {
    node: SnapNode,
}

// The snapshots before one, that one, and those after it.
#[cycle(snapshots)]
#[derive(Drop)]
enum SnapNode {
    Empty,
    Around(Box<SnapTree>, Boxed<Snap>, Box<SnapTree>),
}

impl Model for SnapTree {
    ghost use Rattle.std.specs.Prelude.{List, length};
    ghost use Rattle.virt_types.specs.declared.domain.Snap.{Snap as TheSnap};

    ghost Value = { List TheSnap };

    ghost use Rattle.virt_types.specs.Snapshots.{IsRising};
    ghost use Rattle.virt_types.specs.SnapNodes.{listed};

    ghost view = { λ s. listed s.node };

    ghost invariant = { λ s. IsRising (listed s.node) };

    ghost size = { length };

    ghost use Rattle.virt_types.specs.SnapNodesFall.{depth_le-length-listed};

    ghost size_decreases = { λ s h. depth_le-length-listed s.node };
}

// Whether a name comes before another, byte by byte.
fn is_before(one: &Name, other: &Name) -> bool
    ensures { result ≡ is_before one.now other.now }
{
    one.as_bytes().cmp(other.as_bytes()).is_lt()
}

fn is_named(name: &Name, snap: &Snap) -> bool
    ensures { result ≡ is_named name.now snap.now }
{
    snap.name.as_bytes() == name.as_bytes()
}

// Two trees and a snapshot between them.
fn around(
    alloc: Global,
    before: SnapTree,
    snap: Boxed<Snap>,
    behind: SnapTree,
) -> Result<SnapTree, NoMemory>
    requires { IsRising (before ++ snap ∷ behind) }
    ensures { IfOk result (λ tree. tree ≡ before ++ snap ∷ behind) }
{
    let before = Box::new(alloc, before)?;
    let behind = Box::new(alloc, behind)?;
    Ok(SnapTree {
        node: SnapNode::Around(before, snap, behind),
    })
}

impl SnapTree {
    pub(crate) fn new() -> SnapTree
        ensures { result ≡ [] }
    {
        SnapTree {
            node: SnapNode::Empty,
        }
    }

    // That the names rise.
    pub(crate) fn rises(&self)
        ensures { IsRising self.now }
    {
        let _node = &self.node;
    }

    pub(crate) fn find(&self, name: &Name) -> Option<&Snap>
        ensures { option_map (λ s. s.now) result ≡ snapshot_named self.now name.now }
    {
        match &self.node {
            SnapNode::Empty => None,
            SnapNode::Around(before, snap, behind) => {
                if is_before(name, &snap.as_ref().name) {
                    before.find(name)
                } else if is_before(&snap.as_ref().name, name) {
                    behind.find(name)
                } else {
                    before.find(name).or(Some(snap.as_ref()))
                }
            }
        }
    }

    pub(crate) fn insert(&mut self, alloc: Global, new: Snap) -> Result<(), NoMemory>
        ensures { self.new ≡ (if is_ok result then with_snapshot self.old new else self.old) }
    {
        match &mut self.node {
            SnapNode::Empty => {
                let before = Box::new(alloc, SnapTree::new())?;
                let behind = Box::new(alloc, SnapTree::new())?;
                self.node = SnapNode::Around(before, Boxed::new(alloc, new)?, behind);
                Ok(())
            }
            SnapNode::Around(before, snap, behind) => {
                if is_before(&new.name, &snap.as_ref().name) {
                    before.insert(alloc, new)
                } else {
                    behind.insert(alloc, new)
                }
            }
        }
    }

    // Appends copies of the snapshots in order.
    pub(crate) fn copy_into(&self, list: &mut ListOf<Snap>) -> Result<(), NoMemory>
        ensures { OnOk result (list.new ≡ list.old ++ self.now) }
    {
        match &self.node {
            SnapNode::Empty => Ok(()),
            SnapNode::Around(before, snap, behind) => {
                before.copy_into(list)?;
                list.push(snap.as_ref().copy()?)?;
                behind.copy_into(list)
            }
        }
    }

    // Appends copies of the names in order.
    pub(crate) fn copy_names_into(&self, names: &mut ListOf<Name>) -> Result<(), NoMemory>
        ensures { OnOk result (names.new ≡ names.old ++ map (λ s. s.name) self.now) }
    {
        match &self.node {
            SnapNode::Empty => Ok(()),
            SnapNode::Around(before, snap, behind) => {
                before.copy_names_into(names)?;
                names.push(snap.as_ref().name.copy()?)?;
                behind.copy_names_into(names)
            }
        }
    }

    // The snapshots of both, without memory.
    fn join(self, other: SnapTree) -> SnapTree
        requires { IsRising (self ++ other) }
        ensures { result ≡ self ++ other }
    {
        match self.node {
            SnapNode::Empty => other,
            SnapNode::Around(before, snap, mut behind) => {
                *behind = mem::replace(&mut *behind, SnapTree::new()).join(other);
                SnapTree {
                    node: SnapNode::Around(before, snap, behind),
                }
            }
        }
    }

    // Takes out the snapshots of this name. It takes no memory.
    pub(crate) fn remove(&mut self, name: &Name)
        ensures { self.new ≡ filter (λ s. not (is_named name.now s)) self.old }
    {
        match &mut self.node {
            SnapNode::Empty => {}
            SnapNode::Around(before, snap, behind) => {
                before.remove(name);
                behind.remove(name);
                if is_named(name, snap.as_ref()) {
                    let left = mem::replace(&mut **before, SnapTree::new());
                    let right = mem::replace(&mut **behind, SnapTree::new());
                    let _gone = mem::replace(self, left.join(right));
                }
            }
        }
    }

    pub(crate) fn count(&self) -> usize
        requires { length self.now < 2 ^ 64 }
        ensures { result ≡ length self.now }
    {
        match &self.node {
            SnapNode::Empty => 0,
            SnapNode::Around(before, _, behind) => before.count() + 1 + behind.count(),
        }
    }

    // The snapshot at this place, from 0.
    pub(crate) fn get(&self, place: usize) -> Option<&Snap>
        requires { length self.now < 2 ^ 64 }
        ensures { option_map (λ s. s.now) result ≡ slice_get self.now place }
    {
        match &self.node {
            SnapNode::Empty => None,
            SnapNode::Around(before, snap, behind) => {
                let left = before.count();
                if place < left {
                    before.get(place)
                } else if place == left {
                    Some(snap.as_ref())
                } else {
                    behind.get(place - left - 1)
                }
            }
        }
    }
}

impl TryCopy for SnapTree {
    fn copy(&self) -> Result<SnapTree, NoMemory> {
        match &self.node {
            SnapNode::Empty => Ok(SnapTree::new()),
            SnapNode::Around(before, snap, behind) => {
                let alloc = *Box::allocator(before);
                let (snap, (before, behind)) = both(
                    snap.copy(),
                    both(before.copy(), behind.copy()),
                )?;
                around(alloc, before, snap, behind)
            }
        }
    }
}
