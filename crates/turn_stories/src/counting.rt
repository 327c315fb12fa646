// Many threads count in turns.
use std::alloc::Global;
use std::sync::Wait;
use std::thread::Threads;
use turn_cell::TurnCell;
use turn_examples::{Counter, add_by_many, count_by_two, look_once};

/// Whether two threads count to two thousand, each time of twenty.
pub(crate) fn by_two<R: Threads + Wait + Sync>(rt: &R, alloc: Global) -> Option<bool> {
    for _ in 0..20 {
        if count_by_two(rt, alloc, 1000)? != 2000 {
            return Some(false);
        }
    }
    Some(true)
}

/// Whether no turn is lost of those that sixty-four threads take, a thousand each.
pub(crate) fn by_many<R: Threads + Wait + Sync>(rt: &R, alloc: Global) -> Option<bool> {
    let Ok((cell, pass)) = TurnCell::new_at(alloc, Counter::new(alloc), 0) else {
        return None;
    };
    let pass = add_by_many(rt, alloc, &cell, pass, 64, 1000)?;
    let (_, total) = look_once(rt, &cell, pass).ok()?;
    Some(total == 64_000)
}
