// The asks of the phases in which a guest is made and set going, one by one.
ghost use Rattle.std.specs.Prelude.{◌≡◌, IfOk, None, OnErr, Some, if◌then◌else◌, is_some, length, nat_lt, slice_get, true};
ghost use Rattle.domain_spec.specs.Call.{tell};
ghost use Rattle.domain_spec.specs.PhaseAsks.{two};
ghost use Rattle.domain_spec.specs.Types.ask;
ghost use Rattle.domain_spec.specs.Types.command;
ghost use Rattle.lifecycle_core.specs.Plans.{asks_due, asks_in, leases_then_make, undo_due_at, undo_in};

use core_rules::{has_lease, lease_of};
use std::alloc::Global;
use virt_types::{Ask, Boxed, Command, Interface, Live, NoMemory, Phase, State};

fn make(alloc: Global, live: &Live) -> Result<Option<Ask>, NoMemory>
    ensures { IfOk result (λ made. made ≡ Some (ask.Make live.now.def live.now.boot)) }
{
    Ok(Some(Ask::Make {
        definition: Boxed::copy_of(alloc, &live.def)?,
        boot: live.boot,
    }))
}

// An address is asked for each interface that gets one, and then the guest is made.
#[tactic(auto, using(crate::proofs::Fronts::behind_none, crate::proofs::Fronts::behind_one, crate::proofs::Fronts::is_first, crate::proofs::Fronts::has_first))]
fn leases_then_make(
    alloc: Global,
    interfaces: &[Interface],
    live: &Live,
    place: usize,
) -> Result<Option<Ask>, NoMemory>
    ensures value { IfOk result (λ ask. ask ≡ slice_get (leases_then_make interfaces.now live.now) place) }
    ensures memory { OnErr result (is_some (slice_get (leases_then_make interfaces.now live.now) place) ≡ true) }
{
    match interfaces {
        [] => {
            if place == 0 {
                make(alloc, live)
            } else {
                Ok(None)
            }
        }
        [first, rest @ ..] => {
            if !has_lease(first) {
                leases_then_make(alloc, rest, live, place)
            } else if place == 0 {
                lease_of(alloc, first)
            } else {
                leases_then_make(alloc, rest, live, place - 1)
            }
        }
    }
}

// A guest that was made is asked whether it is there, and then to go on.
fn run_ask(place: usize) -> Option<Ask>
    ensures { result ≡ slice_get (two command.QueryStatus command.Cont) place }
{
    match place {
        0 => Some(Ask::Command(Command::QueryStatus)),
        1 => Some(Ask::Command(Command::Cont)),
        _ => None,
    }
}

fn ask_in(alloc: Global, live: &Live, phase: Phase, place: usize) -> Result<Option<Ask>, NoMemory>
    ensures value { IfOk result (λ ask. ask ≡ slice_get (asks_in live.now phase) place) }
    ensures memory { OnErr result (is_some (slice_get (asks_in live.now phase) place) ≡ true) }
{
    match phase {
        Phase::Make => leases_then_make(alloc, live.def.interfaces.as_slice(), live, place),
        Phase::Run => Ok(run_ask(place)),
        _ => Ok(None),
    }
}

/// The ask at this place of the phase that is due.
#[tactic(auto, unfolding(crate::specs::Plans::asks_due))]
pub fn ask_at(alloc: Global, state: &State, place: usize) -> Result<Option<Ask>, NoMemory>
    ensures value { IfOk result (λ ask. ask ≡ slice_get (asks_due state.now) place) }
    ensures memory { OnErr result (is_some (slice_get (asks_due state.now) place) ≡ true) }
{
    match state {
        State::Vacant { .. } => Ok(None),
        State::Held(domain) => match (&domain.live, &domain.op) {
            (Some(live), Some(op)) => ask_in(alloc, live, op.phase, place),
            _ => Ok(None),
        },
    }
}

// A guest that can't be set going is ended.
fn run_undo(of: usize, step: usize) -> Option<Ask>
    ensures { result ≡ (if nat_lt of 2 then slice_get (tell command.Quit) step else None) }
{
    if of < 2 && step == 0 {
        Some(Ask::Command(Command::Quit))
    } else {
        None
    }
}

fn undo_in(live: &Live, phase: Phase, of: usize, step: usize) -> Option<Ask>
    ensures { result ≡ (if nat_lt of (length (asks_in live.now phase)) then slice_get (undo_in phase) step else None) }
{
    match phase {
        Phase::Run => run_undo(of, step),
        _ => None,
    }
}

/// The step at this place of what undoes the ask at that place, of the phase that is due.
#[tactic(auto, unfolding(crate::specs::Plans::asks_due, crate::specs::Plans::undo_due))]
pub fn undo_at(state: &State, of: usize, step: usize) -> Option<Ask>
    ensures { result ≡ undo_due_at state.now of step }
{
    match state {
        State::Vacant { .. } => None,
        State::Held(domain) => match (&domain.live, &domain.op) {
            (Some(live), Some(op)) => undo_in(live, op.phase, of, step),
            _ => None,
        },
    }
}
