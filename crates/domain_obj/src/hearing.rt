// A pass hears the guest until nothing more is heard.
ghost use Rattle.std.specs.Prelude.{◌≡◌};
ghost use Rattle.domain_obj.specs.Running.{IsReady};
ghost use Rattle.domain_obj.specs.Hearing.{HasHushed, HasLeft};

use crate::DomainPass;
use crate::ends::Hushed;
use crate::once::{Once, hear_once};
use domain_core::DomainCell;
use monitor_link::Guests;
use std::alloc::Global;
use std::sync::Wait;
use turn_cell::TurnCell;

// How many things are heard at most.
const MOST: u64 = 64;

/// The pass hears the guest until its ears have nothing more to report, or none are available, or 64 things were heard: it
/// takes the ears in one turn, hears while it has none, and in another turn what was heard applies, and the ears are given
/// back. It may wait for the guest.
pub fn hear<G: Guests, R: Wait>(
    rt: &R,
    cell: &TurnCell<DomainCell<G>>,
    alloc: Global,
    pass: DomainPass<G>,
) -> (DomainPass<G>, Hushed)
    requires own { pass.cell ≡ cell.now }
    requires ready { IsReady pass }
    ensures heard { HasHushed G.E.ends G.E.faults G.E.unheard pass result.0 result.1 }
    ensures leaves { HasLeft pass result.0 result.1 }
{
    let mut pass = pass;
    for before in 0..MOST {
        let (after, once) = hear_once(rt, cell, alloc, pass);
        match once {
            Once::Heard(seen) => {
                if before + 1 == MOST {
                    return (after, Hushed::Often(seen));
                }
                pass = after;
            }
            Once::Last(hushed) => return (after, hushed),
        }
    }
    unreachable!()
}
