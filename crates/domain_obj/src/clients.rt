// A client over a domain: it registers, takes what pends for it, and leaves, each in one turn of its pass.
ghost use Rattle.std.specs.Prelude.{◌≡◌, ℕ, IfErr, IfOk, true};
ghost use Rattle.domain_spec.specs.CanTake.{CanTake};
ghost use Rattle.domain_spec.specs.declared.core_step.CoreStep.TheVariants as step;
ghost use Rattle.domain_core.specs.Below.core_owed.Owing.{IsOwing};
ghost use Rattle.domain_core.specs.Below.event_queue.Listening.{registrations};
ghost use Rattle.domain_core.specs.Celled.{cell_in};
ghost use Rattle.domain_obj.specs.Clients.{HandsOver, HasDropped, HasRegistered, HasTaken, HasWatched, Settles, WatchesIn};
ghost use Rattle.domain_obj.specs.Running.{IsSeen, IsSpent};

use crate::{DomainObj, DomainPass, DomainTurn, Seen, seen_in, told_legal};
use domain_core::{DomainCell, Taken, WatchFault};
use history_spec::Stamp;
use monitor_link::Guests;
use std::alloc::Global;
use std::sync::Wait;
use turn_cell::{CellOf, TurnCell};
use virt_types::{ListOf, NoMemory, Transition};

/// What a client took.
#[derive(Drop)]
pub struct Took {
    /// The transitions that pended, the oldest first.
    pub events: ListOf<Transition>,
    /// Whether more came than was kept, so that after them its loss is told.
    pub is_lost: bool,
}

// What pends for each registration, with what was taken, is what its history owes.
fn told_owed<G: Guests>(turn: &mut DomainTurn<G>)
    ensures owed { IsOwing (cell_in turn.old.value) }
    ensures listeners { (cell_in turn.old.value).registrations ≡ registrations turn.old.value.core.turning.listeners }
    ensures same { turn.new ≡ turn.old }
{
    turn.value().holds();
}

// All that pends for a client is dropped, and then a loss that is due; where it is to end, its registration
// ends. The answer is whether its loss was due.
fn settle<G: Guests>(cell: &mut DomainCell<G>, by: Stamp, client: u32, end: bool) -> bool
    requires can { CanTake (cell_in cell.old) (step.Take by.number client) }
    ensures { Settles by.number client end cell.old cell.new result }
{
    cell.holds();
    cell.drop_events(by.again(), client);
    cell.holds();
    if !cell.has(client) {
        true
    } else if end {
        cell.unwatch(by, client);
        false
    } else {
        false
    }
}

// The same, with what pended handed out. Where there is no memory nothing changes.
fn hand_over<G: Guests>(
    cell: &mut DomainCell<G>,
    alloc: Global,
    by: Stamp,
    client: u32,
    end: bool,
) -> Result<Took, NoMemory>
    requires can { CanTake (cell_in cell.old) (step.Take by.number client) }
    ensures { HandsOver by.number client end cell.old cell.new result }
{
    cell.holds();
    match cell.take_events(alloc, by.again(), client) {
        Ok(Taken::Events(events)) => {
            let is_lost = settle(cell, by, client, end);
            Ok(Took { events, is_lost })
        }
        Ok(Taken::Lost(_)) => Ok(Took {
            events: ListOf::new(alloc),
            is_lost: true,
        }),
        Err(NoMemory) => Err(NoMemory),
    }
}

// In a turn, under this number.
fn take_as<G: Guests>(
    turn: &mut DomainTurn<G>,
    alloc: Global,
    client: u32,
    end: bool,
) -> Result<Took, NoMemory>
    ghost number: { ℕ }
    requires can { CanTake (cell_in turn.old.value) (step.Take number client) }
    ensures hands { HandsOver number client end turn.old.value turn.new.value result }
    ensures same { turn.new ≡ record turn.old { value = turn.new.value } }
{
    let by = Stamp::named();
    hand_over(turn.value(), alloc, by, client, end)
}

// The same under the number of the pass that has the turn.
fn take_in<G: Guests>(
    turn: &mut DomainTurn<G>,
    alloc: Global,
    client: u32,
    end: bool,
) -> Result<Took, NoMemory>
    requires can { CanTake (cell_in turn.old.value) (step.Take turn.old.pass.number client) }
    ensures hands { HandsOver turn.old.pass.number client end turn.old.value turn.new.value result }
    ensures same { turn.new ≡ record turn.old { value = turn.new.value } }
{
    take_as(turn, alloc, client, end)
}

// Takes a turn, in which a client of the pass takes all that pends for it, and then a loss that is due: just what its
// history owes it and it has not taken before. With `end` its registration ends in that turn; else it stays, unless
// its loss was told. Where there is no memory for what pends nothing changes. A pass for which no ticket is left comes
// back as the error.
fn take_once<G: Guests, R: Wait>(
    rt: &R,
    cell: &TurnCell<DomainCell<G>>,
    alloc: Global,
    pass: DomainPass<G>,
    client: u32,
    end: bool,
) -> Result<(DomainPass<G>, Result<Took, NoMemory>, Seen), DomainPass<G>>
    requires own { pass.cell ≡ cell.now }
    requires registered { HasRegistered client pass }
    ensures ok { IfOk result (λ r. HasTaken client end pass r.0 r.1) }
    ensures seen { IfOk result (λ r. IsSeen r.2 r.0) }
    ensures spent { IfErr result (λ after. IsSpent pass after) }
{
    let mut turn = match cell.enter(rt, pass) {
        Ok(turn) => turn,
        Err((pass, _)) => return Err(pass),
    };
    told_owed(&mut turn);
    let took = take_in(&mut turn, alloc, client, end);
    let seen = seen_in(&mut turn);
    told_legal(&mut turn);
    Ok((cell.leave(turn), took, seen))
}

// In a turn, under this number.
fn drop_as<G: Guests>(turn: &mut DomainTurn<G>, client: u32) -> bool
    ghost number: { ℕ }
    requires can { CanTake (cell_in turn.old.value) (step.Take number client) }
    ensures settles { Settles number client true turn.old.value turn.new.value result }
    ensures same { turn.new ≡ record turn.old { value = turn.new.value } }
{
    let by = Stamp::named();
    settle(turn.value(), by, client, true)
}

// The same under the number of the pass that has the turn.
fn drop_in<G: Guests>(turn: &mut DomainTurn<G>, client: u32) -> bool
    requires can { CanTake (cell_in turn.old.value) (step.Take turn.old.pass.number client) }
    ensures settles { Settles turn.old.pass.number client true turn.old.value turn.new.value result }
    ensures same { turn.new ≡ record turn.old { value = turn.new.value } }
{
    drop_as(turn, client)
}

// Takes a turn, in which all that pends for a client of the pass is dropped, a loss that is due, and its registration.
// It takes no memory. A pass for which no ticket is left comes back as the error.
fn drop_once<G: Guests, R: Wait>(
    rt: &R,
    cell: &TurnCell<DomainCell<G>>,
    pass: DomainPass<G>,
    client: u32,
) -> Result<(DomainPass<G>, Seen), DomainPass<G>>
    requires own { pass.cell ≡ cell.now }
    requires registered { HasRegistered client pass }
    ensures ok { IfOk result (λ r. HasDropped client pass r.0) }
    ensures seen { IfOk result (λ r. IsSeen r.1 r.0) }
    ensures spent { IfErr result (λ after. IsSpent pass after) }
{
    let mut turn = match cell.enter(rt, pass) {
        Ok(turn) => turn,
        Err((pass, _)) => return Err(pass),
    };
    told_owed(&mut turn);
    drop_in(&mut turn, client);
    let seen = seen_in(&mut turn);
    told_legal(&mut turn);
    Ok((cell.leave(turn), seen))
}

// In a turn, under this number.
fn watch_as<G: Guests>(turn: &mut DomainTurn<G>, alloc: Global) -> Result<u32, WatchFault>
    ghost number: { ℕ }
    ensures watches { WatchesIn number turn.old.value turn.new.value result }
    ensures same { turn.new ≡ record turn.old { value = turn.new.value } }
{
    let by = Stamp::named();
    turn.value().watch(alloc, by)
}

// The same under the number of the pass that has the turn.
fn watch_in<G: Guests>(turn: &mut DomainTurn<G>, alloc: Global) -> Result<u32, WatchFault>
    ensures watches { WatchesIn turn.old.pass.number turn.old.value turn.new.value result }
    ensures same { turn.new ≡ record turn.old { value = turn.new.value } }
{
    watch_as(turn, alloc)
}

// Takes a turn, in which the pass registers a client for the transitions that come from then on, under the least number
// below 16 that no registration has. A pass for which no ticket is left comes back as the error.
fn watch_once<G: Guests, R: Wait>(
    rt: &R,
    cell: &TurnCell<DomainCell<G>>,
    alloc: Global,
    pass: DomainPass<G>,
) -> Result<(DomainPass<G>, Result<u32, WatchFault>, Seen), DomainPass<G>>
    requires own { pass.cell ≡ cell.now }
    ensures ok { IfOk result (λ r. HasWatched pass r.0 r.1) }
    ensures seen { IfOk result (λ r. IsSeen r.2 r.0) }
    ensures spent { IfErr result (λ after. IsSpent pass after) }
{
    let mut turn = match cell.enter(rt, pass) {
        Ok(turn) => turn,
        Err((pass, _)) => return Err(pass),
    };
    told_owed(&mut turn);
    let watched = watch_in(&mut turn, alloc);
    let seen = seen_in(&mut turn);
    told_legal(&mut turn);
    Ok((cell.leave(turn), watched, seen))
}

impl<G: Guests> DomainObj<G> {
    /// A client of the pass registers for the transitions that come from then on, in one turn, under the least number
    /// below 16 that no registration has. A pass for which no ticket is left comes back as the error.
    pub fn watch<R: Wait>(
        &self,
        rt: &R,
        alloc: Global,
        pass: DomainPass<G>,
    ) -> Result<(DomainPass<G>, Result<u32, WatchFault>, Seen), DomainPass<G>>
        requires own { pass.cell ≡ self.now }
        ensures ok { IfOk result (λ r. HasWatched pass r.0 r.1) }
        ensures seen { IfOk result (λ r. IsSeen r.2 r.0) }
        ensures spent { IfErr result (λ after. IsSpent pass after) }
    {
        watch_once(rt, self.turn_cell(), alloc, pass)
    }

    /// A client of the pass takes all that pends for it, and then a loss that is due, in one turn: just what its history
    /// owes it and it has not taken before. With `end` its registration ends in that turn; else it stays, unless its loss
    /// was told. Where there is no memory for what pends nothing changes. A pass for which no ticket is left comes back
    /// as the error.
    pub fn take_events<R: Wait>(
        &self,
        rt: &R,
        alloc: Global,
        pass: DomainPass<G>,
        client: u32,
        end: bool,
    ) -> Result<(DomainPass<G>, Result<Took, NoMemory>, Seen), DomainPass<G>>
        requires own { pass.cell ≡ self.now }
        requires registered { HasRegistered client pass }
        ensures ok { IfOk result (λ r. HasTaken client end pass r.0 r.1) }
        ensures seen { IfOk result (λ r. IsSeen r.2 r.0) }
        ensures spent { IfErr result (λ after. IsSpent pass after) }
    {
        take_once(rt, self.turn_cell(), alloc, pass, client, end)
    }

    /// All that pends for a client of the pass is dropped, a loss that is due, and its registration, in one turn. It
    /// takes no memory. A pass for which no ticket is left comes back as the error.
    pub fn drop_events<R: Wait>(
        &self,
        rt: &R,
        pass: DomainPass<G>,
        client: u32,
    ) -> Result<(DomainPass<G>, Seen), DomainPass<G>>
        requires own { pass.cell ≡ self.now }
        requires registered { HasRegistered client pass }
        ensures ok { IfOk result (λ r. HasDropped client pass r.0) }
        ensures seen { IfOk result (λ r. IsSeen r.1 r.0) }
        ensures spent { IfErr result (λ after. IsSpent pass after) }
    {
        drop_once(rt, self.turn_cell(), pass, client)
    }
}
