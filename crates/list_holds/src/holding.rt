// A slot is asked for in one turn.
ghost use Rattle.std.specs.Prelude.{◌≡◌, ◌<◌, ◌^◌, true, IfErr, IfOk, length};
ghost use Rattle.types_base.specs.Memory.{UnlessNoMemory};
ghost use Rattle.book_spec.specs.ListCalls.{answer};
ghost use Rattle.book_spec.specs.ListHistory.{LeavesMark, slots_of};
ghost use Rattle.slot_holds.specs.Holds.{call_of};
ghost use Rattle.list_holds.specs.Held.{HasHeld};

use object_list::{Held, ListPass, ListTurn, ObjectList, claim_in, hold_name_in, hold_uuid_in};
use slot_holds::Hold;
use std::sync::Wait;
use turn_cell::TurnCell;
use types_base::Front;

// Asks for the slot, in a turn.
fn hold_in(turn: &mut ListTurn, hold: &Hold) -> Held
    requires { turn.old.value.chapter < 2 ^ 62 }
    ensures answer { UnlessNoMemory result (answer (call_of hold.now) (slots_of turn.old.value)) }
    ensures marked { LeavesMark turn.old.pass.number (call_of hold.now) result turn.old.value turn.new.value }
    ensures same { turn.new ≡ record turn.old { value = turn.new.value } }
{
    match hold {
        Hold::Name(name) => hold_name_in(turn, name.as_slice()),
        Hold::Uuid(uuid) => hold_uuid_in(turn, *uuid),
        Hold::Claim { name, uuid } => claim_in(turn, name, *uuid),
    }
}

// How far the history of the list goes, in a turn.
fn front_in(turn: &mut ListTurn) -> Front
    ensures chapter { result.chapter ≡ turn.old.value.chapter }
    ensures marks { result.marks ≡ length turn.old.value.marks }
    ensures same { turn.new ≡ turn.old }
{
    let list = turn.value();
    Front {
        chapter: list.chapter(),
        marks: list.marks(),
    }
}

/// Takes a turn at the list, and asks for the slot. With what the list answered comes the place of the mark that says so.
/// Where no ticket is left, the pass comes back.
pub fn hold_slot<R: Wait>(
    rt: &R,
    cell: &TurnCell<ObjectList>,
    pass: ListPass,
    hold: &Hold,
) -> Result<(ListPass, Held, Front), ListPass>
    requires { pass.cell ≡ cell.now }
    ensures held { IfOk result (λ r. HasHeld (call_of hold.now) r.1 r.2 pass r.0) }
    ensures spent { IfErr result (λ after. after ≡ record pass { spent = true }) }
{
    let mut turn = match cell.enter(rt, pass) {
        Ok(turn) => turn,
        Err((pass, _)) => return Err(pass),
    };
    let held = hold_in(&mut turn, hold);
    let front = front_in(&mut turn);
    Ok((cell.leave(turn), held, front))
}
