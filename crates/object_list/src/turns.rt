// The calls of the list in turns. Each mark bears the number of the pass that has the turn.
ghost use Rattle.std.specs.Prelude.{◌≡◌, ℕ, ◌<◌, ◌≤◌, ◌^◌, true, IfOk, IfErr, Err, slice_index};
ghost use Rattle.types_base.specs.Memory.{UnlessNoMemory};
ghost use Rattle.types_base.specs.declared.memory.OrNoMemory.TheVariants as or;
ghost use Rattle.book_spec.specs.declared.list.ListCall.TheVariants as call;
ghost use Rattle.book_spec.specs.Slots.{all_holders};
ghost use Rattle.book_spec.specs.ListCalls.{answer};
ghost use Rattle.book_spec.specs.ListHistory.{LeavesMark, slots_of, with_call};
ghost use Rattle.object_list.specs.Names.{AreNames};
ghost use Rattle.object_list.specs.Table.{Holds, MayLackMemory};
ghost use Rattle.object_list.specs.Turns.{HasReleased};

use crate::list::ObjectList;
use crate::slot_name::SlotNameList;
use book_spec::ListFault;
use std::sync::Wait;
use turn_book::{Pass, Turn, TurnCell};
use types_base::{Front, Name, NoMemory, OrNoMemory, Uuid};

/// The right to take turns at the list.
pub type ListPass = Pass<ObjectList>;

/// The list, while a pass has its turn.
pub type ListTurn = Turn<ObjectList>;

/// A slot, or why there is none.
pub type Held = Result<u32, OrNoMemory<ListFault>>;

// In the turn of the pass of this number.
fn hold_name_as(turn: &mut ListTurn, name: &[u8]) -> Held
    ghost number: { ℕ }
    requires { turn.old.value.chapter < 2 ^ 62 }
    ensures answer { UnlessNoMemory result (answer (call.HoldName name.now) (slots_of turn.old.value)) }
    ensures marked { LeavesMark number (call.HoldName name.now) result turn.old.value turn.new.value }
    ensures no_memory { result ≡ Err or.NoMemory → 2 ^ 62 ≤ all_holders (slots_of turn.old.value) }
    ensures same { turn.new ≡ record turn.old { value = turn.new.value } }
{
    turn.value().hold_name(name)
}

/// Holds the slot of the domain of this name, in a turn.
pub fn hold_name_in(turn: &mut ListTurn, name: &[u8]) -> Held
    requires { turn.old.value.chapter < 2 ^ 62 }
    ensures answer { UnlessNoMemory result (answer (call.HoldName name.now) (slots_of turn.old.value)) }
    ensures marked { LeavesMark turn.old.pass.number (call.HoldName name.now) result turn.old.value turn.new.value }
    ensures no_memory { result ≡ Err or.NoMemory → 2 ^ 62 ≤ all_holders (slots_of turn.old.value) }
    ensures same { turn.new ≡ record turn.old { value = turn.new.value } }
{
    hold_name_as(turn, name)
}

// In the turn of the pass of this number.
fn hold_uuid_as(turn: &mut ListTurn, uuid: Uuid) -> Held
    ghost number: { ℕ }
    requires { turn.old.value.chapter < 2 ^ 62 }
    ensures answer { UnlessNoMemory result (answer (call.HoldUuid uuid) (slots_of turn.old.value)) }
    ensures marked { LeavesMark number (call.HoldUuid uuid) result turn.old.value turn.new.value }
    ensures no_memory { result ≡ Err or.NoMemory → 2 ^ 62 ≤ all_holders (slots_of turn.old.value) }
    ensures same { turn.new ≡ record turn.old { value = turn.new.value } }
{
    turn.value().hold_uuid(uuid)
}

/// Holds the slot of the domain of this identifier, in a turn.
pub fn hold_uuid_in(turn: &mut ListTurn, uuid: Uuid) -> Held
    requires { turn.old.value.chapter < 2 ^ 62 }
    ensures answer { UnlessNoMemory result (answer (call.HoldUuid uuid) (slots_of turn.old.value)) }
    ensures marked { LeavesMark turn.old.pass.number (call.HoldUuid uuid) result turn.old.value turn.new.value }
    ensures no_memory { result ≡ Err or.NoMemory → 2 ^ 62 ≤ all_holders (slots_of turn.old.value) }
    ensures same { turn.new ≡ record turn.old { value = turn.new.value } }
{
    hold_uuid_as(turn, uuid)
}

// In the turn of the pass of this number.
fn claim_as(turn: &mut ListTurn, name: &Name, uuid: Uuid) -> Held
    ghost number: { ℕ }
    requires { turn.old.value.chapter < 2 ^ 62 }
    ensures answer { UnlessNoMemory result (answer (call.Claim name.now uuid) (slots_of turn.old.value)) }
    ensures marked { LeavesMark number (call.Claim name.now uuid) result turn.old.value turn.new.value }
    ensures no_memory { result ≡ Err or.NoMemory → MayLackMemory (answer (call.Claim name.now uuid) (slots_of turn.old.value)) (slots_of turn.old.value) }
    ensures same { turn.new ≡ record turn.old { value = turn.new.value } }
{
    turn.value().claim(name, uuid)
}

/// Holds the slot of the domain of this name and identifier, or the least free one, in a turn.
pub fn claim_in(turn: &mut ListTurn, name: &Name, uuid: Uuid) -> Held
    requires { turn.old.value.chapter < 2 ^ 62 }
    ensures answer { UnlessNoMemory result (answer (call.Claim name.now uuid) (slots_of turn.old.value)) }
    ensures marked { LeavesMark turn.old.pass.number (call.Claim name.now uuid) result turn.old.value turn.new.value }
    ensures no_memory { result ≡ Err or.NoMemory → MayLackMemory (answer (call.Claim name.now uuid) (slots_of turn.old.value)) (slots_of turn.old.value) }
    ensures same { turn.new ≡ record turn.old { value = turn.new.value } }
{
    claim_as(turn, name, uuid)
}

// In the turn of the pass of this number.
fn release_as(turn: &mut ListTurn, slot: u32, front: Front, occupied: bool)
    ghost number: { ℕ }
    requires { Holds number slot (slots_of turn.old.value) }
    ensures released { turn.new.value ≡ with_call number (call.Release slot front occupied) turn.old.value }
    ensures same { turn.new ≡ record turn.old { value = turn.new.value } }
{
    turn.value().release(slot, front, occupied);
}

// Gives a hold back, in a turn of the pass that has it.
fn release_in(turn: &mut ListTurn, slot: u32, front: Front, occupied: bool)
    requires { Holds turn.old.pass.number slot (slots_of turn.old.value) }
    ensures released { turn.new.value ≡ with_call turn.old.pass.number (call.Release slot front occupied) turn.old.value }
    ensures same { turn.new ≡ record turn.old { value = turn.new.value } }
{
    release_as(turn, slot, front, occupied);
}

/// Takes a turn, and gives a hold back. Where no ticket is left, the pass comes back and keeps it.
pub fn release<R: Wait>(
    rt: &R,
    cell: &TurnCell<ObjectList>,
    pass: ListPass,
    slot: u32,
    front: Front,
    occupied: bool,
) -> Result<ListPass, ListPass>
    requires own { pass.cell ≡ cell.now }
    requires holds { 0 < slice_index pass.share slot }
    ensures released { IfOk result (λ after. HasReleased slot front occupied pass after) }
    ensures spent { IfErr result (λ after. after ≡ record pass { spent = true }) }
{
    let mut turn = match cell.enter(rt, pass) {
        Ok(turn) => turn,
        Err((pass, _)) => return Err(pass),
    };
    release_in(&mut turn, slot, front, occupied);
    Ok(cell.leave(turn))
}

/// The domains with their slots, by rising name, as they are in this turn. It leaves no mark.
pub fn names_in(turn: &mut ListTurn) -> Result<SlotNameList, NoMemory>
    ensures names { IfOk result (AreNames (slots_of turn.old.value)) }
    ensures same { turn.new ≡ turn.old }
{
    turn.value().names()
}
