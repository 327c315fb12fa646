// Who is registered, and the chapters of the history.
ghost use Rattle.std.specs.Prelude.{◌≡◌, ◌<◌, ◌^◌, ◌∷◌, [], IfOk, None, OnErr, OnOk};
ghost use Rattle.domain_spec.specs.CanTake.{CanTake};
ghost use Rattle.domain_spec.specs.Kept.{left_queue};
ghost use Rattle.domain_spec.specs.declared.core_step.CoreStep.TheVariants as step;
ghost use Rattle.domain_spec.specs.declared.mark.Mark.TheVariants as mark;
ghost use Rattle.domain_core.specs.Clients.{WatchesSo, with_queue};
ghost use Rattle.domain_core.specs.Celled.{KeepsLink, KeepsOtherShares, cell_in};
ghost use Rattle.event_queue.specs.Listening.{HandsOut, dropped_by, listening_of};
ghost use Rattle.core_steps.specs.Turning.{Takes};
ghost use Rattle.core_steps.specs.ClientLaws.{IsDropping, IsTaking};

use crate::cell::DomainCell;
use crate::keep;
use core_steps::WatchFault;
use event_queue::Taken;
use history_spec::Stamp;
use monitor_link::Guests;
use std::alloc::Global;
use virt_types::{NoMemory, Who};

impl<G: Guests> DomainCell<G> {
    /// Registers a client for the transitions that come from now on, under the least number below 16 that no
    /// registration has.
    pub fn watch(&mut self, alloc: Global, by: Stamp) -> Result<u32, WatchFault>
        ensures watches { WatchesSo by.number self.old.core.turning self.new.core.turning result }
        ensures excluded { self.new.core.excluded ≡ None }
        ensures out { self.new.out ≡ self.old.out }
        ensures link { KeepsLink self.old self.new }
        ensures others { KeepsOtherShares by.number self.old self.new }
    {
        let watched = self.turns.watch(alloc, by);
        keep(&mut self.link, self.turns.made());
        watched
    }

    /// Ends a registration for which nothing pends, by the pass that made it. It takes no memory.
    pub fn unwatch(&mut self, by: Stamp, client: u32)
        requires can { CanTake (cell_in self.old) (step.Unwatch by.number client) }
        ensures leaves { Takes self.old.core.turning self.new.core.turning (step.Unwatch by.number client) (λ left. left ≡ mark.Unwatch by.number client ∷ []) }
        ensures excluded { self.new.core.excluded ≡ None }
        ensures out { self.new.out ≡ self.old.out }
        ensures link { KeepsLink self.old self.new }
        ensures others { KeepsOtherShares by.number self.old self.new }
    {
        self.turns.unwatch(by, client);
        keep(&mut self.link, self.turns.made());
    }

    /// Hands out all that pends for a client, or its loss, once, where nothing does. Where there is no memory
    /// nothing changes.
    pub fn take_events(&mut self, alloc: Global, by: Stamp, client: u32) -> Result<Taken, NoMemory>
        requires can { CanTake (cell_in self.old) (step.Take by.number client) }
        ensures given { IfOk result (λ taken. HandsOut (listening_of self.old.core.turning.listeners client) taken) }
        ensures takes { OnOk result (IsTaking by.number client self.old.core.turning self.new.core.turning) }
        ensures err { OnErr result (self.new.core.turning ≡ self.old.core.turning) }
        ensures excluded { self.new.core.excluded ≡ None }
        ensures out { self.new.out ≡ self.old.out }
        ensures link { KeepsLink self.old self.new }
        ensures others { KeepsOtherShares by.number self.old self.new }
    {
        let taken = self.turns.take_events(alloc, by, client);
        keep(&mut self.link, self.turns.made());
        taken
    }

    /// Drops all that pends for a client, and then a loss that is due. It takes no memory.
    pub fn drop_events(&mut self, by: Stamp, client: u32)
        requires can { CanTake (cell_in self.old) (step.Take by.number client) }
        ensures drops { IsDropping by.number client self.old.core.turning self.new.core.turning }
        ensures listeners { self.new.core.turning.listeners ≡ dropped_by self.old.core.turning.listeners client }
        ensures excluded { self.new.core.excluded ≡ None }
        ensures out { self.new.out ≡ self.old.out }
        ensures link { KeepsLink self.old self.new }
        ensures others { KeepsOtherShares by.number self.old self.new }
    {
        self.turns.drop_events(by, client);
        keep(&mut self.link, self.turns.made());
    }

    /// Ends the chapter: the next one begins with the state, the operation that is under way, and who is
    /// registered. Where there is no memory all stays, but the caller waits no more.
    pub fn rotate(&mut self, alloc: Global, by: Stamp, who: Who) -> Result<(), NoMemory>
        requires can { CanTake (cell_in self.old) (step.Rotate by.number who) }
        requires number { self.old.core.turning.chapter < 2 ^ 62 }
        ensures ok { OnOk result (Takes self.old.core.turning self.new.core.turning (step.Rotate by.number who) (λ left. left ≡ [])) }
        ensures queue { OnOk result ((cell_in self.new).queue ≡ (cell_in self.old).queue) }
        ensures err { OnErr result (self.new.core.turning ≡ with_queue self.old.core.turning (left_queue (cell_in self.old).queue by.number who)) }
        ensures excluded { self.new.core.excluded ≡ None }
        ensures out { self.new.out ≡ self.old.out }
        ensures link { KeepsLink self.old self.new }
        ensures others { KeepsOtherShares by.number self.old self.new }
    {
        let rotated = self.turns.rotate(alloc, by, who);
        keep(&mut self.link, self.turns.made());
        rotated
    }
}
