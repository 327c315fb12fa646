// One turn of a call that begins an operation or takes one up, until it is admitted.
ghost use Rattle.std.specs.Prelude.{◌≡◌, IfErr, IfOk};
ghost use Rattle.domain_obj.specs.Running.{IsSpent};
ghost use Rattle.domain_obj.specs.Entered.{HasEntered, IsReadyToEnter};
ghost use Rattle.domain_obj.specs.Entering.{Operates};

use crate::operating::entering::{Entry, enter_in};
use crate::{DomainPass, last_in, told_legal};
use domain_core::DomainCell;
use monitor_link::Guests;
use std::alloc::Global;
use std::sync::Wait;
use turn_cell::TurnCell;
use virt_types::{Call, Front, Who};

/// Takes one more of so many turns, in which a long chapter ends and then the call looks whether its operation may begin, or
/// be taken up; where it is excluded it gives up, if both its turns and its looks are enough. With the place of the
/// chapter's last mark of some pass. A pass for which no ticket is left comes back as the error.
pub fn enter_once<G: Guests, R: Wait>(
    rt: &R,
    cell: &TurnCell<DomainCell<G>>,
    alloc: Global,
    pass: DomainPass<G>,
    who: Who,
    call: &Call,
    turns: u32,
) -> Result<(DomainPass<G>, Entry, Front), DomainPass<G>>
    requires own { pass.cell ≡ cell.now }
    requires ready { IsReadyToEnter who pass }
    requires operates { Operates call.now }
    ensures ok { IfOk result (λ r. HasEntered who call.now turns pass r.0 r.2 r.1) }
    ensures spent { IfErr result (λ after. IsSpent pass after) }
{
    let mut turn = match cell.enter(rt, pass) {
        Ok(turn) => turn,
        Err((pass, _)) => return Err(pass),
    };
    let entry = enter_in(&mut turn, alloc, who, call, turns);
    let place = last_in(&mut turn);
    told_legal(&mut turn);
    Ok((cell.leave(turn), entry, place))
}
