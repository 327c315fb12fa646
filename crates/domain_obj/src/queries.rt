// What is read of a domain, in one turn.
ghost use Rattle.std.specs.Prelude.{◌≡◌};
ghost use Rattle.domain_obj.specs.Running.{HasQueried};

use crate::place::Seen;
use crate::turns::{DomainPass, read_in, seen_in, told_legal};
use domain_core::DomainCell;
use monitor_link::Guests;
use std::alloc::Global;
use std::sync::Wait;
use turn_cell::TurnCell;
use virt_types::{NoMemory, Query, Reply};

/// What became of a query.
#[derive(Drop)]
pub enum Queried {
    /// Its value, and what the pass has seen.
    Read(Reply, Seen),
    /// There was no memory for its value.
    NoMemory(Seen),
    /// No ticket was left.
    Spent,
}

/// Takes a turn, and reads. The history stays as it is.
pub fn query<G: Guests, R: Wait>(
    rt: &R,
    cell: &TurnCell<DomainCell<G>>,
    alloc: Global,
    pass: DomainPass<G>,
    query: &Query,
) -> (DomainPass<G>, Queried)
    requires own { pass.cell ≡ cell.now }
    ensures { HasQueried query.now pass result.0 result.1 }
{
    let mut turn = match cell.enter(rt, pass) {
        Ok(turn) => turn,
        Err((pass, _)) => return (pass, Queried::Spent),
    };
    told_legal(&mut turn);
    let seen = seen_in(&mut turn);
    let read = read_in(&mut turn, alloc, query);
    let pass = cell.leave(turn);
    match read {
        Ok(reply) => (pass, Queried::Read(reply, seen)),
        Err(NoMemory) => (pass, Queried::NoMemory(seen)),
    }
}
