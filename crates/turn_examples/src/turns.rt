ghost use Rattle.std.specs.Prelude.{◌≡◌, ℕ, true, IfOk, IfErr, OnOk, OnErr};
ghost use Rattle.turn_examples.specs.Counting.{Adds, total_of};
ghost use Rattle.turn_examples.specs.Keeping.{HasAdded, HasLooked, KeptBack};

use crate::counter::{AddFault, Counter};
use std::sync::Wait;
use turn_cell::{Pass, Turn, TurnCell};

pub type CounterPass = Pass<Counter>;

pub type CounterTurn = Turn<Counter>;

/// Why a pass added nothing.
#[derive(Clone, Copy, Debug, PartialEq, Eq, Drop)]
pub enum NotAdded {
    /// No ticket is left.
    Spent,
    Fault(AddFault),
}

// Adds an amount in the turn of the pass of this number.
fn add_as(turn: &mut CounterTurn, amount: u64) -> Result<(), AddFault>
    ghost number: { ℕ }
    ensures ok { OnOk result (Adds number amount turn.old.value turn.new.value) }
    ensures err { OnErr result (turn.new.value ≡ turn.old.value) }
    ensures same { turn.new ≡ record turn.old { value = turn.new.value } }
{
    turn.value().add(amount)
}

/// Adds an amount in a turn. Its mark bears the number of the pass that has the turn.
pub fn add_in(turn: &mut CounterTurn, amount: u64) -> Result<(), AddFault>
    ensures ok { OnOk result (Adds turn.old.pass.number amount turn.old.value turn.new.value) }
    ensures err { OnErr result (turn.new.value ≡ turn.old.value) }
    ensures same { turn.new ≡ record turn.old { value = turn.new.value } }
{
    add_as(turn, amount)
}

/// Takes a turn and adds an amount.
pub fn add_once<R: Wait>(
    rt: &R,
    cell: &TurnCell<Counter>,
    pass: CounterPass,
    amount: u64,
) -> Result<CounterPass, (CounterPass, NotAdded)>
    requires { pass.cell ≡ cell.now }
    ensures ok { IfOk result (λ after. HasAdded amount pass after) }
    ensures err { IfErr result (λ e. KeptBack e.1 pass e.0) }
{
    let mut turn = match cell.enter(rt, pass) {
        Ok(turn) => turn,
        Err((pass, _)) => return Err((pass, NotAdded::Spent)),
    };
    let added = add_in(&mut turn, amount);
    let pass = cell.leave(turn);
    match added {
        Ok(()) => Ok(pass),
        Err(fault) => Err((pass, NotAdded::Fault(fault))),
    }
}

/// Takes a turn and reads the total.
pub fn look_once<R: Wait>(
    rt: &R,
    cell: &TurnCell<Counter>,
    pass: CounterPass,
) -> Result<(CounterPass, u64), CounterPass>
    requires { pass.cell ≡ cell.now }
    ensures ok { IfOk result (λ r. HasLooked r.1 pass r.0) }
    ensures spent { IfErr result (λ after. after ≡ record pass { spent = true }) }
{
    let mut turn = match cell.enter(rt, pass) {
        Ok(turn) => turn,
        Err((pass, _)) => return Err(pass),
    };
    let total = total_in(&mut turn);
    Ok((cell.leave(turn), total))
}

fn total_in(turn: &mut CounterTurn) -> u64
    ensures total { result ≡ total_of turn.old.value }
    ensures same { turn.new ≡ turn.old }
{
    turn.value().total()
}
