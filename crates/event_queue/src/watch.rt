// The ring of a registration. All its memory is taken when it is made, so no later call wants any.
ghost use Rattle.std.specs.Prelude.{◌≡◌, ◌≤◌, ◌^◌, IfOk, length, slice_get};
ghost use Rattle.event_queue.specs.Ring.{after_all, after_clear, after_push, after_take, answer_to_push, new_ring, pushed_all};

use std::alloc::Global;
use std::collections::VecDeque;
use std::marker::Model;
use types_base::{ListOf, NoMemory, Transition};

// How many transitions may pend.
const MOST_PENDING: usize = 256;

// How many transitions a registration keeps in all.
const MOST_PUSHED: u64 = 1 << 62;

/// What became of a transition that came.
#[derive(Clone, Copy, Debug, PartialEq, Eq)]
pub enum Pushed {
    /// It pends after the others.
    Kept,
    /// It was not kept, and none is kept from now on.
    Lost {
        /// How many pended as the registration ended: 256, or fewer where 2^62 had come.
        pending: u32,
    },
}

/// A client's registration for a domain's transitions: those that pend, at most 256, the oldest first.
/// It ends with the first transition for which there is no room; what pends then can still be taken.
#[derive(Drop)]
pub struct Watch {
    pending: VecDeque<Transition>,
    taken: u64,
    ended: Option<u32>,
}

impl Model for Watch {
    ghost use Rattle.std.specs.Prelude.{◌+◌, ◌^◌, ◌≤◌};
    ghost use Rattle.std.specs.VecDeque.{deque_capacity, deque_len};
    ghost use Rattle.event_queue.specs.Ring.{Ring};

    ghost Value = { Ring };

    ghost view = { λ w. record { pending = w.pending.items; taken = w.taken; ended = w.ended } };

    ghost invariant = { λ w. (deque_len w.pending ≤ 256) × (256 ≤ deque_capacity w.pending) × (w.taken + deque_len w.pending ≤ 2 ^ 62) };
}

impl Watch {
    /// A registration for which nothing came yet. It takes all the memory that it will need.
    pub fn new(alloc: Global) -> Result<Watch, NoMemory>
        ensures { IfOk result (λ watch. watch ≡ new_ring) }
    {
        Ok(Watch {
            pending: VecDeque::with_capacity(alloc, MOST_PENDING)?,
            taken: 0,
            ended: None,
        })
    }

    /// A transition comes. `Lost` is the answer exactly where 256 pend or 2^62 came before, and from
    /// then on.
    pub fn push(&mut self, transition: Transition) -> Pushed
        ensures answer { result ≡ answer_to_push self.old }
        ensures watch { self.new ≡ after_push self.old transition }
    {
        if let Some(pending) = self.ended {
            return Pushed::Lost { pending };
        }
        let pending = self.pending.len();
        if pending >= MOST_PENDING || self.taken + pending as u64 >= MOST_PUSHED {
            self.ended = Some(pending as u32);
            return Pushed::Lost {
                pending: pending as u32,
            };
        }
        self.pending.push_back_reserved(transition);
        Pushed::Kept
    }

    /// These transitions come, one after the other.
    #[tactic(auto, using(crate::proofs::Pushing::pushes_all, crate::proofs::Pushing::pushes_none))]
    pub fn extend(&mut self, transitions: &[Transition])
        ensures { self.new ≡ after_all self.old transitions.now }
    {
        if self.ended.is_none() {
            push_all(self, transitions);
        }
    }

    /// Takes the oldest transition that pends; none where nothing pends.
    pub fn take(&mut self) -> Option<Transition>
        ensures oldest { result ≡ slice_get self.old.pending 0 }
        ensures watch { self.new ≡ after_take self.old }
    {
        let oldest = self.pending.pop_front()?;
        self.taken += 1;
        Some(oldest)
    }

    /// Takes all that pend. It takes no memory.
    pub fn clear(&mut self)
        ensures { self.new ≡ after_clear self.old }
    {
        self.taken += self.pending.len() as u64;
        self.pending.clear();
    }

    /// Copies of those that pend, the oldest first.
    pub fn to_list(&self, alloc: Global) -> Result<ListOf<Transition>, NoMemory>
        ensures { IfOk result (λ list. list ≡ self.now.pending) }
    {
        Ok(ListOf::of(self.pending.iter().copied().collect(alloc)?))
    }

    /// How many pend, at most 256.
    pub fn pending(&self) -> usize
        ensures { result ≡ length self.now.pending }
    {
        self.pending.len()
    }

    /// How many were taken, at most 2^62.
    pub fn taken(&self) -> u64
        ensures value { result ≡ self.now.taken }
        ensures most { result ≤ 2 ^ 62 }
    {
        self.taken
    }

    /// How many pended as the registration ended; none where it goes on.
    pub fn ended(&self) -> Option<u32>
        ensures { result ≡ self.now.ended }
    {
        self.ended
    }
}

fn push_all(watch: &mut Watch, transitions: &[Transition])
    ensures { watch.new ≡ pushed_all watch.old transitions.now }
{
    match transitions {
        [] => {}
        [first, rest @ ..] => {
            watch.push(*first);
            push_all(watch, rest);
        }
    }
}
