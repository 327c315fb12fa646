// A snapshot that has its node of the tree before it is put there.
ghost use Rattle.std.specs.Prelude.{◌≡◌, IfOk, Some};
ghost use Rattle.virt_types.specs.Snapshots.{with_snapshot};

use super::{SnapNode, SnapTree, is_before};
use crate::domain::Snap;
use crate::run_state::RunState;
use std::alloc::Global;
use std::marker::Model;
use types_base::{Boxed, Bytes, NoMemory};

/// A snapshot with all the memory that a list needs to hold it, which contracts see as the snapshot.
#[derive(Drop)]
pub struct NewSnap {
    before: Box<SnapTree>,
    snap: Boxed<Snap>,
    behind: Box<SnapTree>,
}

impl Model for NewSnap {
    ghost use Rattle.std.specs.Prelude.{◌≡◌, []};
    ghost use Rattle.virt_types.specs.declared.domain.Snap.{Snap as TheSnap};

    ghost Value = { TheSnap };

    ghost view = { λ n. n.snap };

    ghost invariant = { λ n. (n.before.value ≡ []) × (n.behind.value ≡ []) };
}

impl NewSnap {
    /// This snapshot, and its node.
    pub fn new(alloc: Global, snap: Snap) -> Result<NewSnap, NoMemory>
        ensures { IfOk result (λ new. new ≡ snap) }
    {
        let before = Box::new(alloc, SnapTree::new())?;
        let behind = Box::new(alloc, SnapTree::new())?;
        Ok(NewSnap {
            before,
            snap: Boxed::new(alloc, snap)?,
            behind,
        })
    }

    /// The snapshot as it is taken of a guest that did this, and had this state.
    pub fn taken_of(mut self, run: RunState, saved: Bytes) -> NewSnap
        ensures { result ≡ record self { run = Some run; saved = saved } }
    {
        let snap = self.snap.as_mut();
        snap.run = Some(run);
        snap.saved = saved;
        self
    }
}

impl SnapTree {
    // Puts a snapshot after those whose names are not greater. It takes no memory.
    pub(crate) fn put(&mut self, new: NewSnap)
        ensures { self.new ≡ with_snapshot self.old new }
    {
        match &mut self.node {
            SnapNode::Empty => {
                let NewSnap {
                    before,
                    snap,
                    behind,
                } = new;
                self.node = SnapNode::Around(before, snap, behind);
            }
            SnapNode::Around(before, snap, behind) => {
                if is_before(&new.snap.as_ref().name, &snap.as_ref().name) {
                    before.put(new);
                } else {
                    behind.put(new);
                }
            }
        }
    }
}
