// What guests do by themselves, and the parts of their links.
ghost use Rattle.std.specs.Prelude.{◌≡◌, IfOk, None, OnErr, Some, is_some, length, nat_lt, true};
ghost use Rattle.domain_spec.specs.Cell.{standing_of};
ghost use Rattle.domain_spec.specs.Reading.{is_live};
ghost use Rattle.domain_spec.specs.declared.core_step.CoreStep.TheVariants as step;
ghost use Rattle.domain_core.specs.Core.{HasOut, with_ears};
ghost use Rattle.domain_core.specs.Celled.{KeepsLink, KeepsOtherShares, boot_to_lend, cell_in, standing_in};
ghost use Rattle.domain_core.specs.Linked.{ears_in, killed_link, link_lent, with_ears_of};
ghost use Rattle.domain_spec.specs.Kept.{looks_of};
ghost use Rattle.domain_spec.specs.Types.call;
ghost use Rattle.monitor_link.specs.Views.{ears_view};
ghost use Rattle.domain_core.specs.Tickets.{HandsEars, IsHeardCounted, lent_boot};
ghost use Rattle.core_steps.specs.Turning.{Takes};
ghost use Rattle.core_step_laws.specs.Shares.{KeepsOthers};
ghost use Rattle.core_steps.specs.Guests.{AreUntold, applies_now, boot_to_hear, ears_lent, event_marks, exit_marks};

use crate::cell::DomainCell;
use crate::{DomainTurns, Here, keep, kill, put_ears, take_ears};
use history_spec::Stamp;
use monitor_link::Guests;
use std::alloc::Global;
use virt_types::{EndReason, GuestEvent, NoMemory, Who};

// Lends the ears of the guest that is there.
fn lend<G: Guests>(
    turns: &mut DomainTurns,
    link: &mut Option<Here<G>>,
    alloc: Global,
    by: Stamp,
) -> Result<Option<(u64, G::E)>, NoMemory>
    requires ears { turns.old.turning.cell.ears ≡ None → is_some (ears_in link.old) ≡ true }
    ensures boot { IfOk result (λ lent. lent_boot lent ≡ boot_to_hear (standing_of turns.old.turning.cell).state turns.old.turning.cell.held turns.old.turning.cell.ears) }
    ensures lent { IfOk result (λ lent. turns.new.turning ≡ with_ears turns.old.turning (ears_lent by.number (lent_boot lent) turns.old.turning.cell.ears)) }
    ensures ears { IfOk result (λ lent. HandsEars G.E.Ears link.old lent) }
    ensures link { IfOk result (λ lent. link.new ≡ link_lent (lent_boot lent) link.old) }
    ensures err { OnErr result (turns.new.turning ≡ turns.old.turning) }
    ensures stays { OnErr result (link.new ≡ link.old) }
    ensures others { KeepsOthers by.number turns.old.turning.cell turns.new.turning.cell }
{
    match turns.lend_ears(alloc, by) {
        Ok(Some(boot)) => match take_ears(link) {
            Some(ears) => Ok(Some((boot, ears))),
            None => unreachable!(),
        },
        Ok(None) => Ok(None),
        Err(NoMemory) => Err(NoMemory),
    }
}

impl<G: Guests> DomainCell<G> {
    /// Ends the guest that is there, without asking it; nothing where none is. A Destroy does so that was excluded at its
    /// first look, in the turn of that look. It may wait for the guest.
    pub fn kill(&mut self, _who: Who)
        requires excluded { self.old.core.excluded ≡ Some (record { who = _who; call = call.Destroy }) }
        requires first { looks_of (cell_in self.old).queue.callers _who ≡ 1 }
        ensures core { self.new.core ≡ self.old.core }
        ensures out { self.new.out ≡ self.old.out }
        ensures link { self.new.link ≡ killed_link self.old.link }
    {
        kill(&mut self.link);
    }

    /// A boot ended so, as the ears told that are out: where it is live that is marked, and its listeners hear it.
    /// It takes no memory.
    pub fn exit(&mut self, by: Stamp, boot: u64, why: EndReason, ears: &G::E)
        requires own { HasOut by.number boot (cell_in self.old).ears }
        requires untold { AreUntold (cell_in self.old).ears boot }
        requires counted { IsHeardCounted (G.E.ends ears.now) (G.E.faults ears.now) why }
        ensures exits { Takes self.old.core.turning self.new.core.turning (step.Exit boot why) (λ left. left ≡ exit_marks (is_live (standing_in self.old).state boot) boot why self.old.core.turning.listeners) }
        ensures excluded { self.new.core.excluded ≡ None }
        ensures out { self.new.out ≡ self.old.out }
        ensures link { KeepsLink self.old self.new }
        ensures others { KeepsOtherShares by.number self.old self.new }
    {
        self.turns.exit(by, boot, why);
        keep(&mut self.link, self.turns.made());
    }

    /// A guest did this, as the ears told that are out. An event of a boot that is not live is dropped; another
    /// applies where no call is open, and else is held until none is. The answer is false where 64 are held. It
    /// takes no memory.
    pub fn event(&mut self, by: Stamp, boot: u64, event: GuestEvent) -> bool
        requires own { HasOut by.number boot (cell_in self.old).ears }
        requires untold { AreUntold (cell_in self.old).ears boot }
        ensures result { result ≡ nat_lt (length (cell_in self.old).held) 64 }
        ensures happens { Takes self.old.core.turning self.new.core.turning (step.Event boot event) (λ left. left ≡ event_marks (applies_now (standing_in self.old) (standing_in self.old).job boot) (record { boot = boot; event = event }) (standing_in self.old).state self.old.core.turning.listeners) }
        ensures excluded { self.new.core.excluded ≡ None }
        ensures out { self.new.out ≡ self.old.out }
        ensures link { KeepsLink self.old self.new }
        ensures others { KeepsOtherShares by.number self.old self.new }
    {
        let can_hold = self.turns.event(by, boot, event);
        keep(&mut self.link, self.turns.made());
        can_hold
    }

    /// Lends the ears of the guest that is there to the pass of this stamp, with room for one thing that they tell.
    /// None where no guest is there, its ears are out, or 64 events are held. It leaves no mark; where there is no
    /// memory the ears stay.
    pub fn lend_ears(&mut self, alloc: Global, by: Stamp) -> Result<Option<(u64, G::E)>, NoMemory>
        ensures boot { IfOk result (λ lent. lent_boot lent ≡ boot_to_lend self.old) }
        ensures lent { IfOk result (λ lent. self.new.core.turning ≡ with_ears self.old.core.turning (ears_lent by.number (lent_boot lent) (cell_in self.old).ears)) }
        ensures ears { IfOk result (λ lent. HandsEars G.E.Ears self.old.link lent) }
        ensures link { IfOk result (λ lent. self.new.link ≡ link_lent (lent_boot lent) self.old.link) }
        ensures err { OnErr result (self.new.core.turning ≡ self.old.core.turning) }
        ensures stays { OnErr result (self.new.link ≡ self.old.link) }
        ensures out { self.new.out ≡ self.old.out }
        ensures others { KeepsOtherShares by.number self.old self.new }
    {
        match self.turns.made() {
            Some(_) => lend(&mut self.turns, &mut self.link, alloc, by),
            None => Ok(None),
        }
    }

    /// Takes the ears back, which were lent to the pass of this stamp; they are dropped where their boot is not live
    /// any more. It leaves no mark.
    pub fn return_ears(&mut self, by: Stamp, boot: u64, ears: G::E)
        requires own { HasOut by.number boot (cell_in self.old).ears }
        ensures back { self.new.core.turning ≡ with_ears self.old.core.turning None }
        ensures excluded { self.new.core.excluded ≡ None }
        ensures out { self.new.out ≡ self.old.out }
        ensures link { self.new.link ≡ with_ears_of boot (ears_view G.E.Ears ears) self.old.link }
        ensures others { KeepsOtherShares by.number self.old self.new }
    {
        self.turns.return_ears(by, boot);
        put_ears(&mut self.link, boot, ears);
    }
}
