ghost use Rattle.std.specs.Prelude.{◌≡◌};

use std::alloc::Global;
use std::sync::Wait;
use turn_cell::{Kept, Pass, TurnCell};

/// A value of 8 bytes, without marks.
#[derive(Drop)]
pub struct Small {
    pub words: [u64; 1],
}

/// A value of 2,048 bytes, without marks.
#[derive(Drop)]
pub struct Large {
    pub words: [u64; 256],
}

impl Kept for Small {
    ghost use Rattle.turn_bench.specs.Keeping.{without_marks, no_mark_lowers, new_base_keeps};

    type Base = ();

    type Mark = ();

    type Share = ();

    ghost meaning = { without_marks };

    ghost no_mark_lowers = { no_mark_lowers Self };

    ghost new_base_keeps = { new_base_keeps Self };

    fn chapter(&self) -> u64 {
        0
    }

    fn marks(&self) -> u64 {
        0
    }
}

impl Kept for Large {
    ghost use Rattle.turn_bench.specs.Keeping.{without_marks, no_mark_lowers, new_base_keeps};

    type Base = ();

    type Mark = ();

    type Share = ();

    ghost meaning = { without_marks };

    ghost no_mark_lowers = { no_mark_lowers Self };

    ghost new_base_keeps = { new_base_keeps Self };

    fn chapter(&self) -> u64 {
        0
    }

    fn marks(&self) -> u64 {
        0
    }
}

/// So many turns at a cell with a value of 8 bytes.
pub fn turns_at_small<R: Wait>(rt: &R, alloc: Global, times: u64) -> Option<()> {
    let Ok((cell, pass)) = TurnCell::new_at(alloc, Small { words: [0; 1] }, 0) else {
        return None;
    };
    take_turns(rt, &cell, pass, times)
}

/// So many turns at a cell with a value of 2,048 bytes.
pub fn turns_at_large<R: Wait>(rt: &R, alloc: Global, times: u64) -> Option<()> {
    let Ok((cell, pass)) = TurnCell::new_at(alloc, Large { words: [0; 256] }, 0) else {
        return None;
    };
    take_turns(rt, &cell, pass, times)
}

fn take_turns<T: Kept + Drop, R: Wait>(
    rt: &R,
    cell: &TurnCell<T>,
    pass: Pass<T>,
    times: u64,
) -> Option<()>
    requires { pass.cell ≡ cell.now }
{
    let mut pass = pass;
    for _ in 0..times {
        match cell.enter(rt, pass) {
            Ok(turn) => pass = cell.leave(turn),
            Err(_) => return None,
        }
    }
    Some(())
}
