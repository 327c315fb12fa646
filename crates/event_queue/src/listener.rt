// One registration.
ghost use Rattle.std.specs.Prelude.{◌≡◌, ◌&&◌, ◌+◌, ◌≤◌, ◌^◌, IfOk, not};
ghost use Rattle.domain_spec.specs.Registrations.{tells_loss, with_pending};
ghost use Rattle.event_queue.specs.Listening.{emptied, hears, is_of, new_listening};
ghost use Rattle.event_queue.specs.Telling.{is_over};

use crate::Watch;
use crate::cut::Cut;
use history_spec::Stamp;
use std::alloc::Global;
use std::marker::Model;
use types_base::{ListOf, NoMemory, Transition};

/// A registration for a domain's transitions. Contracts see it with the number of its pass.
#[derive(Drop)]
pub struct Listener {
    by: Stamp,
    client: u32,
    watch: Watch,
}

impl Model for Listener {
    ghost use Rattle.event_queue.specs.Listening.{Listening};
    ghost use Rattle.event_queue.specs.Rings.{listening};

    ghost Value = { Listening };

    ghost view = { λ l. listening l.by.number l.client l.watch };
}

impl Listener {
    /// A registration of this client, to which nothing came yet. It takes all the memory that it will
    /// need.
    pub(crate) fn new(alloc: Global, by: Stamp, client: u32) -> Result<Listener, NoMemory>
        ensures { IfOk result (λ it. it ≡ new_listening by.number client) }
    {
        Ok(Listener {
            by,
            client,
            watch: Watch::new(alloc)?,
        })
    }

    /// The stamp of the pass that made it.
    pub fn by(&self) -> &Stamp
        ensures { result.now.number ≡ self.now.kept.number }
    {
        &self.by
    }

    /// Which registration it is.
    pub fn client(&self) -> u32
        ensures { result ≡ self.now.kept.client }
    {
        self.client
    }

    /// How many transitions were taken, at most 2^62.
    pub fn taken(&self) -> u64
        ensures value { result ≡ self.now.kept.taken }
        ensures most { result ≤ 2 ^ 62 }
    {
        self.watch.taken()
    }

    /// Copies of the transitions that pend, the oldest first.
    pub fn pending(&self, alloc: Global) -> Result<ListOf<Transition>, NoMemory>
        ensures { IfOk result (λ list. list ≡ self.now.kept.pending) }
    {
        self.watch.to_list(alloc)
    }

    /// Whether more came than it keeps, so that after what pends its loss is due.
    pub fn is_lost(&self) -> bool
        ensures { result ≡ self.now.kept.is_lost }
    {
        self.watch.ended().is_some()
    }

    /// How many pended as it was cut; 0 where it was not.
    pub fn lost(&self) -> u32
        ensures { result ≡ self.now.lost }
    {
        self.watch.ended().unwrap_or(0)
    }

    /// These transitions come. The answer is whether it is cut by them, so that its Cut is due.
    #[tactic(auto, using(crate::proofs::Hearing::hears_all, crate::proofs::Hearing::newly_lost))]
    pub(crate) fn hear(&mut self, events: &[Transition]) -> bool
        ensures answer { result ≡ is_over (with_pending events.now self.old.kept) }
        ensures registration { self.new ≡ hears events.now self.old }
    {
        let was_lost = self.is_lost();
        self.watch.extend(events);
        newly(was_lost, self.is_lost())
    }

    /// What its Cut mark says, where it was cut.
    pub(crate) fn cut(&self) -> Cut
        ensures { result ≡ record { client = self.now.kept.client; total = self.now.kept.taken + self.now.lost; taken = self.now.kept.taken } }
    {
        Cut {
            client: self.client,
            total: self.taken() + self.lost() as u64,
            taken: self.taken(),
        }
    }

    /// All that pends is taken. It takes no memory.
    pub(crate) fn empty(&mut self)
        ensures { self.new ≡ emptied self.old }
    {
        self.watch.clear();
    }

    /// Whether it is this client's.
    pub(crate) fn is_of(&self, client: u32) -> bool
        ensures { result ≡ is_of client self.now }
    {
        self.client == client
    }

    /// Whether nothing pends, and its loss is due.
    pub(crate) fn tells_loss(&self) -> bool
        ensures { result ≡ tells_loss self.now.kept }
    {
        self.is_lost() && self.watch.pending() == 0
    }
}

// It is lost now, and was not before.
fn newly(was: bool, is: bool) -> bool
    ensures { result ≡ (is && not was) }
{
    is && !was
}
