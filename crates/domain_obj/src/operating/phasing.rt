// The turns of an operation that goes on: its due phase, and its end.
ghost use Rattle.std.specs.Prelude.{◌≡◌, IfErr, IfOk};
ghost use Rattle.domain_obj.specs.Running.{IsSpent};
ghost use Rattle.domain_obj.specs.Phasing.{HasEnded, HasStepped, IsDueFor, IsOverFor};
ghost use Rattle.domain_spec.specs.declared.open.OpenOperation.{OpenOperation};

use crate::operating::going::{end_in, phase_in};
use crate::{DomainPass, last_in, told_legal};
use domain_core::{DomainCell, PhaseLook};
use monitor_link::Guests;
use std::alloc::Global;
use std::sync::Wait;
use turn_cell::TurnCell;
use virt_types::{Front, Reply, Who};

/// Takes a turn, in which a long chapter ends, if there is memory for the next one, and then the due phase of the pass's
/// operation is admitted where no normal job is open. With the place of the chapter's last mark of some pass. A pass for which
/// no ticket is left comes back as the error.
pub fn phase_once<G: Guests, R: Wait>(
    rt: &R,
    cell: &TurnCell<DomainCell<G>>,
    alloc: Global,
    pass: DomainPass<G>,
    who: Who,
) -> Result<(DomainPass<G>, PhaseLook<G>, Front), DomainPass<G>>
    ghost operation: { OpenOperation }
    requires own { pass.cell ≡ cell.now }
    requires due { IsDueFor who operation pass }
    ensures ok { IfOk result (λ r. HasStepped who operation pass r.0 r.2 r.1) }
    ensures spent { IfErr result (λ after. IsSpent pass after) }
{
    let mut turn = match cell.enter(rt, pass) {
        Ok(turn) => turn,
        Err((pass, _)) => return Err(pass),
    };
    let looked = phase_in(&mut turn, alloc, who);
    let place = last_in(&mut turn);
    told_legal(&mut turn);
    Ok((cell.leave(turn), looked, place))
}

/// Takes a turn, in which the operation of the pass ends, which is over; with what its caller is told, and the place of its
/// End. A pass for which no ticket is left comes back as the error.
pub fn end_once<G: Guests, R: Wait>(
    rt: &R,
    cell: &TurnCell<DomainCell<G>>,
    alloc: Global,
    pass: DomainPass<G>,
    who: Who,
) -> Result<(DomainPass<G>, Reply, Front), DomainPass<G>>
    ghost operation: { OpenOperation }
    requires own { pass.cell ≡ cell.now }
    requires over { IsOverFor who operation pass }
    ensures ok { IfOk result (λ r. HasEnded who operation pass r.0 r.1 r.2) }
    ensures spent { IfErr result (λ after. IsSpent pass after) }
{
    let mut turn = match cell.enter(rt, pass) {
        Ok(turn) => turn,
        Err((pass, _)) => return Err(pass),
    };
    let reply = end_in(&mut turn, alloc, who);
    let place = last_in(&mut turn);
    told_legal(&mut turn);
    Ok((cell.leave(turn), reply, place))
}
