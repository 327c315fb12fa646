// The last ticket.
ghost use Rattle.std.specs.Prelude.{◌≡◌, IfSome, true};

use std::alloc::Global;
use std::sync::Wait;
use turn_cell::TurnCell;
use turn_examples::{Counter, CounterPass, add_once};

const LAST: u64 = 4_611_686_018_427_387_904;

// The ticket in the answer to a spent pass.
fn told<R: Wait>(rt: &R, cell: &TurnCell<Counter>, pass: CounterPass) -> Option<(CounterPass, u64)>
    requires { pass.cell ≡ cell.now }
    ensures { IfSome result (λ r. r.0 ≡ record pass { spent = true }) }
{
    match cell.enter(rt, pass) {
        Ok(turn) => {
            cell.leave(turn);
            None
        }
        Err((pass, spent)) => Some((pass, spent.ticket)),
    }
}

/// Whether the last ticket is served, and no more after it.
pub(crate) fn is_served<R: Wait>(rt: &R, alloc: Global) -> Option<bool> {
    let Ok((cell, pass)) = TurnCell::new_at(alloc, Counter::new(alloc), LAST - 1) else {
        return None;
    };
    let Ok(pass) = add_once(rt, &cell, pass, 5) else {
        return None;
    };
    let (pass, first) = told(rt, &cell, pass)?;
    let (pass, second) = told(rt, &cell, pass)?;
    let total = cell.close(pass).total();
    Some(first == LAST && second == LAST && total == 5)
}
