// Who is registered, and the chapters of the history.
ghost use Rattle.std.specs.Prelude.{◌≡◌, ◌<◌, ◌^◌, ◌∷◌, [], IfOk, None, OnErr, OnOk};
ghost use Rattle.domain_spec.specs.CanTake.{CanTake};
ghost use Rattle.domain_spec.specs.Kept.{left_queue};
ghost use Rattle.domain_spec.specs.declared.core_step.CoreStep.TheVariants as step;
ghost use Rattle.domain_core.specs.Clients.{WatchesSo, with_queue};
ghost use Rattle.event_queue.specs.Listening.{HandsOut, dropped_by, listening_of};
ghost use Rattle.domain_spec.specs.declared.mark.Mark.TheVariants as mark;
ghost use Rattle.core_steps.specs.Turning.{Takes};
ghost use Rattle.core_step_laws.specs.Shares.{KeepsOthers};
ghost use Rattle.core_steps.specs.ClientLaws.{IsDropping, IsTaking};

use crate::turns::{DomainTurns, facts};
use core_steps::{WatchFault, drop_events, rotate, take_events, unwatch, watch};
use event_queue::Taken;
use history_spec::Stamp;
use std::alloc::Global;
use virt_types::{NoMemory, Who};

impl DomainTurns {
    /// Registers a client for the transitions that come from now on, under the least number below 16 that no
    /// registration has.
    #[tactic(auto, using(crate::proofs::Watching::watch_turn, crate::proofs::Watching::watch_keeps))]
    pub fn watch(&mut self, alloc: Global, by: Stamp) -> Result<u32, WatchFault>
        ensures watches { WatchesSo by.number self.old.turning self.new.turning result }
        ensures others { KeepsOthers by.number self.old.turning.cell self.new.turning.cell }
        ensures excluded { self.new.excluded ≡ None }
    {
        facts(&self.kept);
        self.excluded = None;
        let watched = watch(&mut self.kept, self.rooms.len(), alloc, by);
        facts(&self.kept);
        watched
    }

    /// Ends a registration for which nothing pends, by the pass that made it. It takes no memory.
    #[tactic(auto, using(crate::proofs::Watching::own_quiet, crate::proofs::Watching::leave_turn, crate::proofs::Watching::watch_keeps))]
    pub fn unwatch(&mut self, by: Stamp, client: u32)
        requires can { CanTake self.old.turning.cell (step.Unwatch by.number client) }
        ensures leaves { Takes self.old.turning self.new.turning (step.Unwatch by.number client) (λ left. left ≡ mark.Unwatch by.number client ∷ []) }
        ensures others { KeepsOthers by.number self.old.turning.cell self.new.turning.cell }
        ensures excluded { self.new.excluded ≡ None }
    {
        facts(&self.kept);
        self.excluded = None;
        unwatch(&mut self.kept, by, client);
        facts(&self.kept);
    }

    /// Hands out all that pends for a client, or its loss, once, where nothing does. Where there is no memory
    /// nothing changes.
    #[tactic(auto, using(crate::proofs::Watching::own_there, crate::proofs::Watching::take_turn, crate::proofs::Watching::watch_keeps))]
    pub fn take_events(&mut self, alloc: Global, by: Stamp, client: u32) -> Result<Taken, NoMemory>
        requires can { CanTake self.old.turning.cell (step.Take by.number client) }
        ensures given { IfOk result (λ taken. HandsOut (listening_of self.old.turning.listeners client) taken) }
        ensures takes { OnOk result (IsTaking by.number client self.old.turning self.new.turning) }
        ensures err { OnErr result (self.new.turning ≡ self.old.turning) }
        ensures others { KeepsOthers by.number self.old.turning.cell self.new.turning.cell }
        ensures excluded { self.new.excluded ≡ None }
    {
        facts(&self.kept);
        self.excluded = None;
        drop(by);
        take_events(&mut self.kept, alloc, client)
    }

    /// Drops all that pends for a client, and then a loss that is due. It takes no memory.
    #[tactic(auto, using(crate::proofs::Watching::own_there, crate::proofs::Watching::drop_turn, crate::proofs::Watching::watch_keeps))]
    pub fn drop_events(&mut self, by: Stamp, client: u32)
        requires can { CanTake self.old.turning.cell (step.Take by.number client) }
        ensures drops { IsDropping by.number client self.old.turning self.new.turning }
        ensures listeners { self.new.turning.listeners ≡ dropped_by self.old.turning.listeners client }
        ensures others { KeepsOthers by.number self.old.turning.cell self.new.turning.cell }
        ensures excluded { self.new.excluded ≡ None }
    {
        facts(&self.kept);
        self.excluded = None;
        drop(by);
        drop_events(&mut self.kept, client);
    }

    /// Ends the chapter: the next one begins with the state, the operation that is under way, and who is
    /// registered. Where there is no memory all stays, but the caller waits no more.
    #[tactic(auto, using(crate::proofs::Watching::rotate_turn, crate::proofs::Watching::rotate_free, crate::proofs::Watching::rotate_keeps))]
    pub fn rotate(&mut self, alloc: Global, by: Stamp, who: Who) -> Result<(), NoMemory>
        requires can { CanTake self.old.turning.cell (step.Rotate by.number who) }
        requires number { self.old.turning.chapter < 2 ^ 62 }
        ensures ok { OnOk result (Takes self.old.turning self.new.turning (step.Rotate by.number who) (λ left. left ≡ [])) }
        ensures queue { OnOk result (self.new.turning.cell.queue ≡ self.old.turning.cell.queue) }
        ensures err { OnErr result (self.new.turning ≡ with_queue self.old.turning (left_queue self.old.turning.cell.queue by.number who)) }
        ensures others { KeepsOthers by.number self.old.turning.cell self.new.turning.cell }
        ensures excluded { self.new.excluded ≡ None }
    {
        facts(&self.kept);
        self.excluded = None;
        let rotated = rotate(
            &mut self.kept,
            &mut self.queue,
            self.rooms.len(),
            alloc,
            by,
            who,
        );
        facts(&self.kept);
        rotated
    }
}
