// The snapshots of a domain.
ghost use Rattle.std.specs.Prelude.{◌≡◌, ◌==◌, ◌+◌, ◌<◌, ◌≤◌, ◌^◌, [], All, IfOk, OnOk, OnErr, count_by, filter, length, map, not, option_map, slice_get};
ghost use Rattle.virt_types.specs.Snapshots.{IsRising, is_child, is_named, kept_by, snapshot_named, with_parent, with_snapshot};

use crate::domain::Snap;
use crate::snap_tree::{NewSnap, SnapTree};
use std::alloc::Global;
use std::marker::Model;
use types_base::{ListOf, Name, NoMemory, TryCopy};

/// Snapshots by rising name, as a tree of boxes. Contracts see their list.
#[derive(Drop)]
pub struct SnapList {
    tree: SnapTree,
    count: usize,
}

impl Model for SnapList {
    ghost use Rattle.std.specs.Prelude.{◌≡◌, List, length};
    ghost use Rattle.virt_types.specs.declared.domain.Snap.{Snap as TheSnap};

    ghost Value = { List TheSnap };

    ghost view = { λ s. s.tree };

    ghost invariant = { λ s. s.count ≡ length s.tree };
}

impl SnapList {
    /// No snapshots. It takes no memory.
    pub fn new() -> SnapList
        ensures { result ≡ [] }
    {
        SnapList {
            tree: SnapTree::new(),
            count: 0,
        }
    }

    /// The snapshots of this list.
    pub fn of(alloc: Global, snaps: ListOf<Snap>) -> Result<SnapList, NoMemory>
        requires { IsRising snaps }
        ensures { IfOk result (λ list. list ≡ snaps) }
    {
        let mut list = SnapList::new();
        for snap in snaps.into_vec() {
            list.insert(alloc, snap)?;
        }
        Ok(list)
    }

    /// Copies of the snapshots, as a list.
    pub fn to_list(&self, alloc: Global) -> Result<ListOf<Snap>, NoMemory>
        ensures value { IfOk result (λ list. list ≡ self.now) }
        ensures rising { IsRising self.now }
    {
        self.tree.rises();
        let mut list = ListOf::new(alloc);
        self.tree.copy_into(&mut list)?;
        Ok(list)
    }

    /// The names.
    pub fn names(&self, alloc: Global) -> Result<ListOf<Name>, NoMemory>
        ensures { IfOk result (λ names. names ≡ map (λ s. s.name) self.now) }
    {
        let mut names = ListOf::new(alloc);
        self.tree.copy_names_into(&mut names)?;
        Ok(names)
    }

    /// How many there are.
    pub fn len(&self) -> usize
        ensures { result ≡ length self.now }
    {
        self.count
    }

    /// Whether there are none.
    pub fn is_empty(&self) -> bool
        ensures { result ≡ (length self.now == 0) }
    {
        self.count == 0
    }

    /// The snapshot at this place, from 0.
    pub fn get(&self, place: usize) -> Option<&Snap>
        ensures { option_map (λ s. s.now) result ≡ slice_get self.now place }
    {
        if self.count <= place {
            return None;
        }
        self.tree.get(place)
    }

    /// The first snapshot of this name.
    pub fn find(&self, name: &Name) -> Option<&Snap>
        ensures value { option_map (λ s. s.now) result ≡ snapshot_named self.now name.now }
        ensures rising { IsRising self.now }
    {
        self.tree.rises();
        self.tree.find(name)
    }

    /// Puts a snapshot after those whose names are not greater.
    #[tactic(auto, using(crate::proofs::RisingSnaps::length_with))]
    pub fn insert(&mut self, alloc: Global, new: Snap) -> Result<(), NoMemory>
        ensures ok { OnOk result (self.new ≡ with_snapshot self.old new) }
        ensures err { OnErr result (self.new ≡ self.old) }
    {
        if self.count == usize::MAX {
            return Err(NoMemory);
        }
        self.tree.insert(alloc, new)?;
        self.count += 1;
        Ok(())
    }

    /// Takes out the snapshots of this name. It takes no memory.
    #[tactic(auto, using(crate::proofs::RisingSnaps::length_filter_le))]
    pub fn remove(&mut self, name: &Name)
        ensures { self.new ≡ filter (λ s. not (is_named name.now s)) self.old }
    {
        self.tree.remove(name);
        self.count = self.tree.count();
    }

    /// Puts a snapshot, which has its node already, after those whose names are not greater. It takes
    /// no memory.
    #[tactic(auto, using(crate::proofs::RisingSnaps::length_with))]
    pub fn put(&mut self, new: NewSnap)
        requires { length self.old + 1 < 2 ^ 64 }
        ensures { self.new ≡ with_snapshot self.old new }
    {
        self.tree.put(new);
        self.count += 1;
    }

    /// The names of the snapshots whose parent has this name.
    pub fn children(&self, alloc: Global, name: &Name) -> Result<ListOf<Name>, NoMemory>
        ensures { IfOk result (λ names. names ≡ map (λ s. s.name) (filter (is_child name.now) self.now)) }
    {
        let mut names = ListOf::new(alloc);
        self.tree.copy_children_into(name, &mut names)?;
        Ok(names)
    }

    /// How many snapshots have a parent of this name.
    pub fn count_children(&self, name: &Name) -> usize
        ensures { result ≡ count_by (is_child name.now) self.now }
    {
        let _count = self.count;
        self.tree.count_children(name)
    }

    /// Gives the children of this name another parent. `copies` are of that one, as many as there are
    /// children, so it takes no memory.
    pub fn adopt(&mut self, name: &Name, parent: &Option<Name>, copies: ListOf<Option<Name>>)
        requires same { All (λ copy. copy ≡ parent.now) copies }
        requires enough { count_by (is_child name.now) self.old ≤ length copies }
        ensures { self.new ≡ map (with_parent name.now parent.now) self.old }
    {
        self.tree.adopt(name, parent, &mut copies.into_vec());
    }

    /// Takes out the snapshots whose flag is not set, where each has its flag at its place. It takes no
    /// memory.
    #[tactic(auto, using(crate::proofs::KeptSnaps::length_kept_le))]
    pub fn keep(&mut self, flags: &[bool])
        ensures { self.new ≡ kept_by self.old flags.now }
    {
        self.tree.keep(flags);
        self.count = self.tree.count();
    }
}

impl TryCopy for SnapList {
    fn copy(&self) -> Result<SnapList, NoMemory> {
        Ok(SnapList {
            tree: self.tree.copy()?,
            count: self.count,
        })
    }
}
