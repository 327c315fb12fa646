ghost use Rattle.std.specs.Prelude.{◌≡◌, ◌+◌, ◌*◌, IfOk, IfErr, IfSome};
ghost use Rattle.turn_examples.specs.Keeping.{KeptBack};
ghost use Rattle.turn_examples.specs.Many.{HasAddedMany};

use crate::counter::Counter;
use crate::turns::{CounterPass, NotAdded, add_once};
use std::alloc::Global;
use std::sync::Wait;
use std::thread::{Threads, join};
use turn_cell::TurnCell;

/// Adds an amount in as many turns as are asked for.
pub fn add_many<R: Wait>(
    rt: &R,
    cell: &TurnCell<Counter>,
    pass: CounterPass,
    amount: u64,
    times: u64,
) -> Result<CounterPass, NotAdded>
    requires { pass.cell ≡ cell.now }
    ensures { IfOk result (λ after. HasAddedMany amount times pass after) }
{
    let mut pass = pass;
    for _ in 0..times {
        match add_once(rt, cell, pass, amount) {
            Ok(after) => pass = after,
            Err((_, fault)) => return Err(fault),
        }
    }
    Ok(pass)
}

/// Two threads add 1 in this many turns each, with a pass of its own.
pub fn add_by_two<R: Threads + Wait + Sync>(
    rt: &R,
    cell: &TurnCell<Counter>,
    one: CounterPass,
    other: CounterPass,
    times: u64,
) -> Option<(CounterPass, CounterPass)>
    requires { (one.cell ≡ cell.now) × (other.cell ≡ cell.now) }
    ensures one { IfSome result (λ both. HasAddedMany 1 times one both.0) }
    ensures other { IfSome result (λ both. HasAddedMany 1 times other both.1) }
{
    let (a, b) = join(
        rt,
        || -> Option<CounterPass>
            requires { one.cell ≡ cell.now }
            ensures { IfSome result (λ after. HasAddedMany 1 times one after) }
        { add_many(rt, cell, one, 1, times).ok() },
        || -> Option<CounterPass>
            requires { other.cell ≡ cell.now }
            ensures { IfSome result (λ after. HasAddedMany 1 times other after) }
        { add_many(rt, cell, other, 1, times).ok() },
    );
    Some((a?, b?))
}

/// Two threads count to this number each, on a new counter. Then their passes are joined, and the
/// cell is closed. `None` where tickets or memory ran out.
pub fn count_by_two<R: Threads + Wait + Sync>(rt: &R, alloc: Global, times: u64) -> Option<u64>
    ensures { IfSome result (λ total. total ≡ times + times) }
{
    let Ok((cell, pass)) = TurnCell::new_at(alloc, Counter::new(alloc), 0) else {
        return None;
    };
    let (one, other) = cell.split(pass);
    let (one, other) = add_by_two(rt, &cell, one, other, times)?;
    let pass = cell.join(one, other);
    Some(cell.close(pass).total())
}
