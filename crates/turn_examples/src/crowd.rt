ghost use Rattle.std.specs.Prelude.{◌≡◌, ◌-◌, ◌<◌, All, IfSome};

use crate::counter::Counter;
use crate::turns::CounterPass;
use crate::two::add_many;
use std::alloc::Global;
use std::sync::Wait;
use std::thread;
use std::thread::Threads;
use turn_cell::TurnCell;

/// So many threads add 1 in this many turns each, with passes that are cut off this one. `None`
/// where tickets or memory ran out.
pub fn add_by_many<R: Threads + Wait + Sync>(
    rt: &R,
    alloc: Global,
    cell: &TurnCell<Counter>,
    pass: CounterPass,
    threads: u64,
    times: u64,
) -> Option<CounterPass>
    requires own { pass.cell ≡ cell.now }
    requires parts { threads < pass.parts }
    ensures { IfSome result (λ after. after ≡ record pass { parts = pass.parts - threads }) }
{
    let (pass, others) = cut_off(alloc, cell, pass, threads)?;
    let added = thread::map_vec(
        rt,
        others,
        &|other: CounterPass| -> bool
            requires { other.cell ≡ cell.now }
        { add_many(rt, cell, other, 1, times).is_ok() },
    );
    match added {
        Ok(added) if added.iter().all(|is_added| *is_added) => Some(pass),
        _ => None,
    }
}

/// Cuts so many passes off. `None` where memory ran out.
pub fn cut_off(
    alloc: Global,
    cell: &TurnCell<Counter>,
    pass: CounterPass,
    count: u64,
) -> Option<(CounterPass, Vec<CounterPass>)>
    requires own { pass.cell ≡ cell.now }
    requires parts { count < pass.parts }
    ensures kept { IfSome result (λ r. r.0 ≡ record pass { parts = pass.parts - count }) }
    ensures others { IfSome result (λ r. All (λ other. other.cell ≡ cell.now) r.1.items) }
{
    let mut pass = pass;
    let mut others = Vec::new(alloc);
    for _ in 0..count {
        if others.reserve(1).is_err() {
            return None;
        }
        let (rest, other) = cell.split(pass);
        pass = rest;
        others.push_reserved(other);
    }
    Some((pass, others))
}
