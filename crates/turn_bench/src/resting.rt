ghost use Rattle.std.specs.Prelude.{◌≡◌};

use std::alloc::Global;
use std::sync::Wait;
use std::thread;
use std::thread::Threads;
use turn_cell::TurnCell;
use turn_examples::{Counter, CounterPass, cut_off};

/// So many passes rest so often, each in a thread of its own, while nobody leaves a mark.
pub fn rest<R: Threads + Wait + Sync>(
    rt: &R,
    alloc: Global,
    passes: u64,
    times: u64,
) -> Option<()> {
    let Ok((cell, pass)) = TurnCell::new_at(alloc, Counter::new(alloc), 0) else {
        return None;
    };
    let (_, others) = cut_off(alloc, &cell, pass, passes.min(1000))?;
    thread::map_vec(
        rt,
        others,
        &|other: CounterPass| -> ()
            requires { other.cell ≡ cell }
        { rest_often(rt, &cell, other, times) },
    )
    .ok()?;
    Some(())
}

fn rest_often<R: Wait>(rt: &R, cell: &TurnCell<Counter>, pass: CounterPass, times: u64)
    requires { pass.cell ≡ cell.now }
{
    let mut pass = pass;
    for _ in 0..times {
        pass = cell.rest(rt, pass);
    }
}
