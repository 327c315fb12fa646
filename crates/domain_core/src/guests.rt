// What guests do by themselves, and the ears by which they are heard.
ghost use Rattle.std.specs.Prelude.{◌≡◌, IfOk, None, OnErr, length, nat_lt};
ghost use Rattle.domain_spec.specs.Cell.{standing_of};
ghost use Rattle.domain_spec.specs.Reading.{is_live};
ghost use Rattle.domain_spec.specs.declared.core_step.CoreStep.TheVariants as step;
ghost use Rattle.domain_core.specs.Core.{HasOut, with_ears};
ghost use Rattle.core_steps.specs.Turning.{Takes};
ghost use Rattle.core_step_laws.specs.Shares.{KeepsOthers};
ghost use Rattle.core_steps.specs.Guests.{AreUntold, applies_now, boot_to_hear, ears_lent, event_marks, exit_marks};

use crate::turns::{DomainTurns, facts};
use core_steps::{event, exit, lend, take_back};
use history_spec::Stamp;
use std::alloc::Global;
use virt_types::{EndReason, GuestEvent, NoMemory};

impl DomainTurns {
    /// A boot ended so, as the ears told that are out: where it is live that is marked, and its listeners hear it.
    /// It takes no memory.
    #[tactic(auto, using(crate::proofs::Hearing::exit_turn, crate::proofs::Hearing::exit_keeps, core_steps::proofs::Keeping::untold_room))]
    pub fn exit(&mut self, by: Stamp, boot: u64, why: EndReason)
        requires own { HasOut by.number boot self.old.turning.cell.ears }
        requires ears { AreUntold self.old.turning.cell.ears boot }
        ensures exits { Takes self.old.turning self.new.turning (step.Exit boot why) (λ left. left ≡ exit_marks (is_live (standing_of self.old.turning.cell).state boot) boot why self.old.turning.listeners) }
        ensures others { KeepsOthers by.number self.old.turning.cell self.new.turning.cell }
        ensures excluded { self.new.excluded ≡ None }
    {
        facts(&self.kept);
        self.excluded = None;
        drop(by);
        exit(&mut self.kept, &mut self.rooms, &mut self.ears, boot, why);
        facts(&self.kept);
    }

    /// A guest did this, as the ears told that are out. An event of a boot that is not live is dropped; another
    /// applies where no call is open, and else is held until none is. The answer is false where 64 are held. It
    /// takes no memory.
    #[tactic(auto, using(crate::proofs::Hearing::event_turn, crate::proofs::Hearing::event_keeps))]
    pub fn event(&mut self, by: Stamp, boot: u64, event_heard: GuestEvent) -> bool
        requires own { HasOut by.number boot self.old.turning.cell.ears }
        requires ears { AreUntold self.old.turning.cell.ears boot }
        ensures result { result ≡ nat_lt (length self.old.turning.cell.held) 64 }
        ensures happens { Takes self.old.turning self.new.turning (step.Event boot event_heard) (λ left. left ≡ event_marks (applies_now (standing_of self.old.turning.cell) (standing_of self.old.turning.cell).job boot) (record { boot = boot; event = event_heard }) (standing_of self.old.turning.cell).state self.old.turning.listeners) }
        ensures others { KeepsOthers by.number self.old.turning.cell self.new.turning.cell }
        ensures excluded { self.new.excluded ≡ None }
    {
        facts(&self.kept);
        self.excluded = None;
        drop(by);
        let can_hold = event(
            &mut self.kept,
            &mut self.held,
            &mut self.rooms,
            &mut self.ears,
            boot,
            event_heard,
        );
        facts(&self.kept);
        can_hold
    }

    /// Lends the ears of the live boot to the pass of this stamp, with room for one thing that they tell. None where
    /// no boot is live, the ears are out, or 64 events are held. It leaves no mark; where there is no memory the
    /// ears stay.
    #[tactic(auto, using(crate::proofs::Hearing::event_keeps))]
    pub fn lend_ears(&mut self, alloc: Global, by: Stamp) -> Result<Option<u64>, NoMemory>
        ensures boot { IfOk result (λ boot. boot ≡ boot_to_hear (standing_of self.old.turning.cell).state self.old.turning.cell.held self.old.turning.cell.ears) }
        ensures lent { IfOk result (λ boot. self.new.turning ≡ with_ears self.old.turning (ears_lent by.number boot self.old.turning.cell.ears)) }
        ensures err { OnErr result (self.new.turning ≡ self.old.turning) }
        ensures others { KeepsOthers by.number self.old.turning.cell self.new.turning.cell }
        ensures excluded { self.new.excluded ≡ None }
    {
        self.excluded = None;
        lend(
            &mut self.kept,
            &mut self.held,
            &mut self.rooms,
            &mut self.ears,
            alloc,
            by,
        )
    }

    /// Takes the ears back. The answer is whether their boot is live still; else they are of no more use. It leaves
    /// no mark.
    #[tactic(auto, using(crate::proofs::Hearing::back_keeps))]
    pub fn return_ears(&mut self, by: Stamp, boot: u64) -> bool
        requires own { HasOut by.number boot self.old.turning.cell.ears }
        ensures live { result ≡ is_live (standing_of self.old.turning.cell).state boot }
        ensures back { self.new.turning ≡ with_ears self.old.turning None }
        ensures others { KeepsOthers by.number self.old.turning.cell self.new.turning.cell }
        ensures excluded { self.new.excluded ≡ None }
    {
        self.excluded = None;
        drop(by);
        take_back(&self.kept, &mut self.ears, boot)
    }
}
