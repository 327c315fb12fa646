// One turn of a call that is not admitted yet.
ghost use Rattle.std.specs.Prelude.{◌≡◌, IfErr, IfOk, None};
ghost use Rattle.domain_obj.specs.Running.{IsSpent};
ghost use Rattle.domain_obj.specs.Turned.{HasTried, IsReadyToLook};
ghost use Rattle.domain_spec.specs.Call.{begins, takes_up};

use crate::attempting::{Attempt, attempt_in};
use crate::{DomainPass, last_in, told_legal};
use domain_core::DomainCell;
use domain_spec::First;
use monitor_link::Guests;
use std::alloc::Global;
use std::sync::Wait;
use turn_cell::TurnCell;
use virt_types::{Call, Front, Who};

/// Takes one more of so many turns, in which a long chapter ends and then the call looks; where it is excluded it gives up,
/// if both its turns and its looks are enough. With the place of the chapter's last mark of some pass. A pass for which no
/// ticket is left comes back as the error.
pub fn attempt_once<G: Guests, R: Wait>(
    rt: &R,
    cell: &TurnCell<DomainCell<G>>,
    alloc: Global,
    pass: DomainPass<G>,
    who: Who,
    call: &Call,
    first: First,
    turns: u32,
) -> Result<(DomainPass<G>, Attempt<G>, Front), DomainPass<G>>
    requires own { pass.cell ≡ cell.now }
    requires ready { IsReadyToLook who call.now first pass }
    requires begins { begins call.now ≡ None }
    requires takes { takes_up call.now ≡ None }
    ensures ok { IfOk result (λ r. HasTried who call.now first turns pass r.0 r.2 r.1) }
    ensures spent { IfErr result (λ after. IsSpent pass after) }
{
    let mut turn = match cell.enter(rt, pass) {
        Ok(turn) => turn,
        Err((pass, _)) => return Err(pass),
    };
    let attempt = attempt_in(&mut turn, alloc, who, call, first, turns);
    let place = last_in(&mut turn);
    told_legal(&mut turn);
    Ok((cell.leave(turn), attempt, place))
}
