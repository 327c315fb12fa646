// What ends a rest.
ghost use Rattle.std.specs.Prelude.{◌≡◌, IfSome};

use std::alloc::Global;
use std::rt::Clock;
use std::sync::Wait;
use std::thread::{Threads, join};
use std::time::{Duration, Instant};
use turn_cell::TurnCell;
use turn_examples::{Counter, CounterPass, add_once, look_once};

// How many milliseconds a rest takes at least where nothing ends it, with some room for the clock.
const WHOLE_REST: u128 = 95;

// Rests until the total is odd, or even.
fn rest_until<R: Wait>(
    rt: &R,
    cell: &TurnCell<Counter>,
    pass: CounterPass,
    parity: u64,
) -> Option<CounterPass>
    requires { pass.cell ≡ cell.now }
    ensures { IfSome result (λ after. after.cell ≡ pass.cell) }
{
    let mut pass = pass;
    for _ in rt.forever() {
        let (after, total) = look_once(rt, cell, pass).ok()?;
        if total % 2 == parity {
            return Some(after);
        }
        pass = cell.rest(rt, after);
    }
    unreachable!()
}

// Adds 1 so often, each time that the total has this parity.
fn add_alternately<R: Wait>(
    rt: &R,
    cell: &TurnCell<Counter>,
    pass: CounterPass,
    parity: u64,
    times: u64,
) -> Option<CounterPass>
    requires { pass.cell ≡ cell.now }
{
    let mut pass = pass;
    for _ in 0..times {
        let ready = rest_until(rt, cell, pass, parity)?;
        pass = add_once(rt, cell, ready, 1).ok()?;
    }
    Some(pass)
}

// How long a rest takes after a turn without a mark.
fn rest_after_a_look<R: Wait + Clock>(
    rt: &R,
    cell: &TurnCell<Counter>,
    pass: CounterPass,
) -> Option<(CounterPass, Duration)>
    requires { pass.cell ≡ cell.now }
    ensures { IfSome result (λ r. r.0.cell ≡ pass.cell) }
{
    let (pass, _) = look_once(rt, cell, pass).ok()?;
    let start = Instant::now(rt).ok()?;
    let pass = cell.rest(rt, pass);
    let taken = start.elapsed(rt).ok()?;
    Some((pass, taken))
}

// Takes turns without marks for this long.
fn look_for<R: Wait + Clock>(
    rt: &R,
    cell: &TurnCell<Counter>,
    pass: CounterPass,
    time: Duration,
) -> Option<()>
    requires { pass.cell ≡ cell.now }
{
    let start = Instant::now(rt).ok()?;
    let mut pass = pass;
    for _ in rt.forever() {
        if start.elapsed(rt).ok()? >= time {
            return Some(());
        }
        let (after, _) = look_once(rt, cell, pass).ok()?;
        pass = after;
    }
    unreachable!()
}

/// Whether two threads that rest until the other one has left its mark are done long before their rests would end by themselves.
pub(crate) fn is_ended_by_marks<R: Threads + Wait + Clock + Sync>(
    rt: &R,
    alloc: Global,
) -> Option<bool> {
    let Ok((cell, pass)) = TurnCell::new_at(alloc, Counter::new(alloc), 0) else {
        return None;
    };
    let (one, other) = cell.split(pass);
    let start = Instant::now(rt).ok()?;
    let (one, other) = join(
        rt,
        || -> Option<CounterPass>
            requires { one.cell ≡ cell }
        { add_alternately(rt, &cell, one, 0, 1000) },
        || -> Option<CounterPass>
            requires { other.cell ≡ cell }
        { add_alternately(rt, &cell, other, 1, 1000) },
    );
    let taken = start.elapsed(rt).ok()?;
    Some(one.is_some() && other.is_some() && taken < Duration::from_secs(5))
}

/// Whether a rest goes on while another thread takes turns without marks, and ends by itself.
pub(crate) fn ends_by_itself<R: Threads + Wait + Clock + Sync>(
    rt: &R,
    alloc: Global,
) -> Option<bool> {
    let Ok((cell, pass)) = TurnCell::new_at(alloc, Counter::new(alloc), 0) else {
        return None;
    };
    let (one, other) = cell.split(pass);
    let (rested, looked) = join(
        rt,
        || -> Option<(CounterPass, Duration)>
            requires { one.cell ≡ cell }
        { rest_after_a_look(rt, &cell, one) },
        || -> Option<()>
            requires { other.cell ≡ cell }
        { look_for(rt, &cell, other, Duration::from_millis(300)) },
    );
    let (_, taken) = rested?;
    looked?;
    Some(taken.as_millis() >= WHOLE_REST && taken < Duration::from_secs(2))
}
