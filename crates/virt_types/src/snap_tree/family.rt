// Changes of the tree that a deletion needs, for which no memory is taken.
ghost use Rattle.std.specs.Prelude.{◌≡◌, ◌+◌, ◌<◌, ◌≤◌, ◌^◌, ◌∷◌, ◌++◌, [], All, OnOk, count_by, drop, filter, length, map};
ghost use Rattle.virt_types.specs.Snapshots.{is_child, is_parent, kept_by, with_parent};

use super::{SnapNode, SnapTree};
use crate::domain::Snap;
use std::mem;
use types_base::{ListOf, Name, NoMemory, TryCopy};

fn is_parent(parent: &Option<Name>, name: &Name) -> bool
    ensures { result ≡ is_parent parent.now name.now }
{
    match parent {
        None => false,
        Some(parent) => parent.as_bytes() == name.as_bytes(),
    }
}

// One copy of the parent for a child.
fn adopt_one(snap: &mut Snap, name: &Name, _parent: &Option<Name>, copies: &mut Vec<Option<Name>>)
    requires same { All (λ copy. copy ≡ _parent.now) copies.old.items }
    requires enough { count_by (is_child name.now) (snap.old ∷ []) ≤ length copies.old.items }
    ensures snap { snap.new ≡ with_parent name.now _parent.now snap.old }
    ensures same { All (λ copy. copy ≡ _parent.now) copies.new.items }
    ensures fewer { length copies.new.items + count_by (is_child name.now) (snap.old ∷ []) ≡ length copies.old.items }
{
    if is_parent(&snap.parent, name) {
        match copies.pop() {
            Some(copy) => snap.parent = copy,
            None => unreachable!(),
        }
    }
}

impl SnapTree {
    // How many snapshots have a parent of this name.
    pub(crate) fn count_children(&self, name: &Name) -> usize
        requires { length self.now < 2 ^ 64 }
        ensures { result ≡ count_by (is_child name.now) self.now }
    {
        match &self.node {
            SnapNode::Empty => 0,
            SnapNode::Around(before, snap, behind) => {
                let own = if is_parent(&snap.as_ref().parent, name) {
                    1
                } else {
                    0
                };
                before.count_children(name) + own + behind.count_children(name)
            }
        }
    }

    // Appends copies of the names of those whose parent has this name, in order.
    pub(crate) fn copy_children_into(
        &self,
        name: &Name,
        names: &mut ListOf<Name>,
    ) -> Result<(), NoMemory>
        ensures { OnOk result (names.new ≡ names.old ++ map (λ s. s.name) (filter (is_child name.now) self.now)) }
    {
        match &self.node {
            SnapNode::Empty => Ok(()),
            SnapNode::Around(before, snap, behind) => {
                before.copy_children_into(name, names)?;
                if is_parent(&snap.as_ref().parent, name) {
                    names.push(snap.as_ref().name.copy()?)?;
                }
                behind.copy_children_into(name, names)
            }
        }
    }

    // Gives the children of this name another parent, of which there are copies enough.
    pub(crate) fn adopt(
        &mut self,
        name: &Name,
        parent: &Option<Name>,
        copies: &mut Vec<Option<Name>>,
    )
        requires same { All (λ copy. copy ≡ parent.now) copies.old.items }
        requires enough { count_by (is_child name.now) self.old ≤ length copies.old.items }
        ensures tree { self.new ≡ map (with_parent name.now parent.now) self.old }
        ensures same { All (λ copy. copy ≡ parent.now) copies.new.items }
        ensures fewer { length copies.new.items + count_by (is_child name.now) self.old ≡ length copies.old.items }
    {
        match &mut self.node {
            SnapNode::Empty => {}
            SnapNode::Around(before, snap, behind) => {
                before.adopt(name, parent, copies);
                adopt_one(snap.as_mut(), name, parent, copies);
                behind.adopt(name, parent, copies);
            }
        }
    }

    // Takes out the snapshots whose flag is not set, and answers the flags of the trees after this one.
    pub(crate) fn keep<'a>(&mut self, flags: &'a [bool]) -> &'a [bool]
        ensures tree { self.new ≡ kept_by self.old flags.now }
        ensures rest { result.now ≡ drop (length self.old) flags.now }
    {
        match &mut self.node {
            SnapNode::Empty => flags,
            SnapNode::Around(before, _, behind) => match before.keep(flags) {
                [] => &[],
                [stays, others @ ..] => {
                    let rest = behind.keep(others);
                    if !*stays {
                        let left = mem::replace(&mut **before, SnapTree::new());
                        let right = mem::replace(&mut **behind, SnapTree::new());
                        let _gone = mem::replace(self, left.join(right));
                    }
                    rest
                }
            },
        }
    }
}
