// A domain that passes take turns at.
ghost use Rattle.std.specs.Prelude.{◌≡◌, ◌≤◌, ◌<◌, ◌^◌, ◌+◌, ◌-◌, IfErr, IfOk, None, false, true};
ghost use Rattle.domain_core.specs.Celled.{new_cell};
ghost use Rattle.domain_core.specs.Meaning.{meaning};
ghost use Rattle.domain_obj.specs.Running.{HasQueried};
ghost use Rattle.domain_obj.specs.Running.{IsReady};
ghost use Rattle.domain_obj.specs.Hearing.{HasHushed, HasLeft};
ghost use Rattle.domain_obj.specs.Runs.{HasRun, HasRunOperation};
ghost use Rattle.domain_obj.specs.Entering.{Operates};
ghost use Rattle.domain_spec.specs.Call.{begins, takes_up};
ghost use Rattle.history_spec.specs.Chapter.{GoesOn, added};
ghost use Rattle.history_spec.specs.Pass.{AreOf};
ghost use Rattle.turn_cell.specs.Passes.{Closes, Enters, IsCutOff, IsFirst, SameShare, joined, left_by, turns_of_all};

use crate::places::{At, place_at, seen_by};
use crate::replies::{told_of_call, told_of_operation};
use crate::{Desk, DomainPass, DomainTurn, Hushed, Queried, hear, query, run_call, run_operation};
use domain_core::DomainCell;
use monitor_link::Guests;
use std::alloc::Global;
use std::marker::Model;
use std::sync::Wait;
use turn_cell::{CellOf, Spent, TurnCell};
use virt_types::{Call, DomainDef, NoMemory, Query, Reply, Who};

/// A domain that passes take turns at. Contracts see which cell it is.
#[derive(Drop)]
pub struct DomainObj<G: Guests> {
    cell: TurnCell<DomainCell<G>>,
}

impl<G: Guests> CellOf<DomainCell<G>> for DomainObj<G> {
    ghost use Rattle.std.specs.Prelude.{◌≡◌};

    ghost place = { λ domain. domain };

    fn turn_cell(&self) -> &TurnCell<DomainCell<G>>
        ensures { result.now ≡ self.now }
    {
        &self.cell
    }
}

impl<G: Guests> Model for DomainObj<G> {
    ghost use Rattle.atomic_table.specs.Seated.{TableId, table_id_coded};

    ghost Value = { TableId };

    ghost coded = { table_id_coded };

    ghost view = { λ o. o.cell };
}

impl<G: Guests> DomainObj<G> {
    /// A domain as the store was opened, whose first turn has this ticket, and its first pass.
    pub fn new_at(
        alloc: Global,
        stored: Option<DomainDef>,
        autostart: bool,
        first_ticket: u64,
    ) -> Result<(DomainObj<G>, DomainPass<G>), NoMemory>
        requires { first_ticket ≤ 2 ^ 62 }
        ensures cell { IfOk result (λ made. made.1.cell ≡ made.0) }
        ensures pass { IfOk result (λ made. IsFirst meaning (new_cell stored autostart) first_ticket made.1) }
    {
        let cell = match DomainCell::new(alloc, stored, autostart) {
            Ok(cell) => cell,
            Err(e) => return Err(e),
        };
        match TurnCell::new_at(alloc, cell, first_ticket) {
            Ok((cell, pass)) => Ok((DomainObj { cell }, pass)),
            Err((cell, _)) => {
                drop(cell);
                Err(NoMemory)
            }
        }
    }

    /// A call over the domain, which neither begins an operation nor takes one up. Where its job is excluded it waits, and
    /// is refused after thirty looks (68), or at once where 32 others wait (203). Once it is admitted the desk is asked,
    /// while the pass has no turn, until the call is done. Then the pass hears the guest. Without a ticket it is refused
    /// with 211, and the pass that comes back is spent; without memory with 2, and nothing is left of it.
    pub fn run<D: Desk<G>, R: Wait>(
        &self,
        rt: &R,
        alloc: Global,
        pass: DomainPass<G>,
        who: Who,
        call: &Call,
        desk: &mut D,
    ) -> (DomainPass<G>, Reply, At)
        requires own { pass.cell ≡ self.now }
        requires ready { IsReady pass }
        requires begins { begins call.now ≡ None }
        requires takes { takes_up call.now ≡ None }
        ensures { HasRun G.E.ends G.E.faults G.E.unheard who call.now pass result.0 (D.report desk.old) (D.report desk.new) result.1 result.2 }
    {
        let (pass, called) = run_call(rt, &self.cell, alloc, pass, who, call, desk);
        let (pass, hushed) = hear(rt, &self.cell, alloc, pass);
        let (reply, place) = told_of_call(alloc, called);
        (pass, reply, place_at(place, seen_by(hushed)))
    }

    /// A call over the domain that begins an operation or takes one up. Where its job is excluded it waits, and is refused
    /// after thirty looks (68), or at once where 32 others wait (203). Once it is admitted its operation goes on phase after
    /// phase, until it ends or rests; a phase that is excluded waits without a limit. The desk is asked while the pass has
    /// no turn. Then the pass hears the guest. Without a ticket the call is refused with 211, and the pass that comes back
    /// is spent: where the operation was admitted it stays open. Without memory before that it is refused with 2, and nothing
    /// is left of it.
    pub fn run_op<D: Desk<G>, R: Wait>(
        &self,
        rt: &R,
        alloc: Global,
        pass: DomainPass<G>,
        who: Who,
        call: &Call,
        desk: &mut D,
    ) -> (DomainPass<G>, Reply, At)
        requires own { pass.cell ≡ self.now }
        requires ready { IsReady pass }
        requires operates { Operates call.now }
        ensures { HasRunOperation G.E.ends G.E.faults G.E.unheard who call.now pass result.0 (D.report desk.old) (D.report desk.new) result.1 result.2 }
    {
        let (pass, operated) = run_operation(rt, &self.cell, alloc, pass, who, call, desk);
        let (pass, hushed) = hear(rt, &self.cell, alloc, pass);
        let (reply, place) = told_of_operation(alloc, operated);
        (pass, reply, place_at(place, seen_by(hushed)))
    }

    /// The pass hears the guest until its ears have nothing more to report, none are available, or 64 things were heard.
    pub fn hear<R: Wait>(
        &self,
        rt: &R,
        alloc: Global,
        pass: DomainPass<G>,
    ) -> (DomainPass<G>, Hushed)
        requires own { pass.cell ≡ self.now }
        requires ready { IsReady pass }
        ensures heard { HasHushed G.E.ends G.E.faults G.E.unheard pass result.0 result.1 }
        ensures leaves { HasLeft pass result.0 result.1 }
    {
        hear(rt, &self.cell, alloc, pass)
    }

    /// Waits for the pass's turn, and takes the domain. A pass is `Spent` where no ticket is left, and stays so.
    pub fn enter<R: Wait>(
        &self,
        rt: &R,
        pass: DomainPass<G>,
    ) -> Result<DomainTurn<G>, (DomainPass<G>, Spent)>
        requires own { pass.cell ≡ self.now }
        ensures turn { IfOk result (λ turn. Enters meaning pass turn) }
        ensures spent { IfErr result (λ e. e.0 ≡ record pass { spent = true }) }
        ensures ticket { IfErr result (λ e. e.1.ticket ≡ 2 ^ 62) }
        ensures used_up { IfErr result (λ _. pass.spent ≡ false → pass.parts ≡ 2 ^ 62 → 2 ^ 62 ≤ pass.first + turns_of_all pass) }
    {
        self.cell.enter(rt, pass)
    }

    /// Ends the turn, and leaves the domain as it is now. Marks may have been added, or the next chapter begun, and nothing
    /// that another pass keeps there may have changed.
    pub fn leave(&self, turn: DomainTurn<G>) -> DomainPass<G>
        requires own { turn.pass.cell ≡ self.now }
        requires goes_on { GoesOn (meaning.next_base turn.entry) (meaning.history turn.entry) (meaning.history turn.value) }
        requires marks { AreOf meaning.whose turn.pass.number (added (meaning.history turn.entry) (meaning.history turn.value)) }
        requires others { SameShare meaning turn.pass.number turn.entry turn.value }
        ensures { result ≡ left_by meaning turn }
    {
        self.cell.leave(turn)
    }

    /// Takes a turn, and reads. The history stays as it is.
    pub fn query<R: Wait>(
        &self,
        rt: &R,
        alloc: Global,
        pass: DomainPass<G>,
        asked: &Query,
    ) -> (DomainPass<G>, Queried)
        requires own { pass.cell ≡ self.now }
        ensures { HasQueried asked.now pass result.0 result.1 }
    {
        query(rt, &self.cell, alloc, pass, asked)
    }

    /// Cuts a part of the pass off, as a new pass that has seen as much and has another number.
    pub fn split(&self, pass: DomainPass<G>) -> (DomainPass<G>, DomainPass<G>)
        requires own { pass.cell ≡ self.now }
        requires parts { 1 < pass.parts }
        ensures kept { result.0 ≡ record pass { parts = pass.parts - 1 } }
        ensures new { IsCutOff meaning pass result.1 }
    {
        self.cell.split(pass)
    }

    /// Puts two passes together, where the second has nothing open.
    pub fn join(&self, one: DomainPass<G>, other: DomainPass<G>) -> DomainPass<G>
        requires one { one.cell ≡ self.now }
        requires other { other.cell ≡ self.now }
        requires empty { other.share ≡ meaning.nothing }
        ensures both { result ≡ joined one other }
    {
        self.cell.join(one, other)
    }

    /// Takes the domain back out, with the last pass.
    pub fn close(self, pass: DomainPass<G>) -> DomainCell<G>
        requires own { pass.cell ≡ self }
        requires last { pass.parts ≡ 2 ^ 62 }
        ensures { Closes meaning pass result }
    {
        self.cell.close(pass)
    }
}
