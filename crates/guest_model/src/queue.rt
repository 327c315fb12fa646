// What is still to be heard of a guest, in order.
ghost use Rattle.std.specs.Prelude.{◌≡◌, ◌++◌, ◌∷◌, [], IfNone, IfSome, OnErr, OnOk};

use crate::happening::Happening;
use std::alloc::Global;
use std::collections::VecDeque;
use std::marker::Model;
use virt_types::NoMemory;

/// What is still to be heard of a guest. Contracts see it as a list.
#[derive(Drop)]
pub struct Queue {
    happenings: VecDeque<Happening>,
}

impl Model for Queue {
    ghost use Rattle.std.specs.Prelude.{List};
    ghost use Rattle.guest_model.specs.declared.happening.Happening.{Happening};

    ghost Value = { List Happening };

    ghost view = { λ q. q.happenings.items };
}

impl Queue {
    /// Nothing is to be heard.
    pub fn new(alloc: Global) -> Queue
        ensures { result ≡ [] }
    {
        Queue {
            happenings: VecDeque::new(alloc),
        }
    }

    /// Where it takes memory from.
    pub fn allocator(&self) -> Global {
        *self.happenings.allocator()
    }

    /// This is to be heard after the others.
    pub fn push(&mut self, happening: Happening) -> Result<(), NoMemory>
        ensures ok { OnOk result (self.new ≡ self.old ++ happening ∷ []) }
        ensures err { OnErr result (self.new ≡ self.old) }
    {
        Ok(self.happenings.push_back(happening)?)
    }

    /// These two are to be heard after the others: both, or neither where there is no memory.
    pub fn push_both(&mut self, one: Happening, other: Happening) -> Result<(), NoMemory>
        ensures ok { OnOk result (self.new ≡ self.old ++ one ∷ other ∷ []) }
        ensures err { OnErr result (self.new ≡ self.old) }
    {
        self.happenings.reserve(2)?;
        self.happenings.push_back_reserved(one);
        self.happenings.push_back_reserved(other);
        Ok(())
    }

    /// What is to be heard next.
    pub fn pop(&mut self) -> Option<Happening>
        ensures some { IfSome result (λ first. self.old ≡ first ∷ self.new) }
        ensures none { IfNone result ((self.old ≡ []) × (self.new ≡ [])) }
    {
        self.happenings.pop_front()
    }
}
