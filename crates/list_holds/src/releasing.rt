// A slot is given back.
ghost use Rattle.std.specs.Prelude.{◌≡◌, ◌<◌, false, slice_index};
ghost use Rattle.book_spec.specs.Slots.{no_holds};
ghost use Rattle.object_list.specs.Turns.{one_more};
ghost use Rattle.list_holds.specs.Released.{LetsGo};

use object_list::{ListPass, ObjectList, release};
use pass_rows::{PassState, RestingPass};
use std::sync::Wait;
use turn_cell::TurnCell;
use types_base::Front;

/// Takes a turn, and releases the slot, which is all that the pass holds: the list is told how far the history of the slot's
/// cell goes that was seen, and whether it was occupied there. Where no ticket is left for that, the pass is spent and keeps
/// its hold.
pub fn give_back<R: Wait>(
    rt: &R,
    cell: &TurnCell<ObjectList>,
    pass: ListPass,
    slot: u32,
    front: Front,
    occupied: bool,
) -> RestingPass<ObjectList>
    requires own { pass.cell ≡ cell.now }
    requires fresh { pass.spent ≡ false }
    requires holds { 0 < slice_index pass.share slot }
    requires once { pass.share ≡ one_more slot no_holds }
    ensures { LetsGo slot front occupied pass result }
{
    match release(rt, cell, pass, slot, front, occupied) {
        Ok(pass) => RestingPass::new(pass, PassState::Idle),
        Err(pass) => RestingPass::new(pass, PassState::Spent),
    }
}
