// Parts of passes are cut off.
ghost use Rattle.std.specs.Prelude.{◌≡◌, ◌<◌, ◌≤◌, [], length, map};
ghost use Rattle.std.specs.List.{All, AllZip};
ghost use Rattle.std.specs.Vec.{vec_capacity};
ghost use Rattle.turn_cell.specs.Passes.{IsCutOff};
ghost use Rattle.pass_rows.specs.Cutting.{cell_of, fewer, HasParts};

use crate::resting::RestingPass;
use core::mem;
use turn_cell::{CellOf, Kept, TurnCell};

/// Cuts a part of the pass off.
pub(crate) fn cut<T: Kept + Drop>(
    pass: RestingPass<T>,
    cell: &TurnCell<T>,
) -> (RestingPass<T>, RestingPass<T>)
    requires own { pass.cell ≡ cell.now }
    requires parts { 1 < pass.parts }
    ensures kept { result.0 ≡ fewer 1 pass }
    ensures new { IsCutOff T.meaning pass result.1 }
{
    let state = pass.state();
    let (pass, part) = cell.split(pass.into_pass());
    (
        RestingPass::new(pass, state),
        RestingPass::new(part, state.of_part()),
    )
}

/// The same in place.
pub(crate) fn cut_off<T: Kept + Drop>(
    pass: &mut RestingPass<T>,
    cell: &TurnCell<T>,
) -> RestingPass<T>
    requires own { pass.old.cell ≡ cell.now }
    requires parts { 1 < pass.old.parts }
    ensures kept { pass.new ≡ fewer 1 pass.old }
    ensures new { IsCutOff T.meaning pass.old result }
{
    mem::replace_with(pass, cell, cut)
}

/// Cuts a part off each pass, into room for as many.
pub(crate) fn cut_off_each<T: Kept + Drop, C: CellOf<T>>(
    passes: &mut Vec<RestingPass<T>>,
    cells: &[C],
    room: Vec<RestingPass<T>>,
) -> Vec<RestingPass<T>>
    requires own { map cell_of passes.old.items ≡ map C.place cells.now }
    requires parts { All (HasParts 2) passes.old.items }
    requires empty { room.items ≡ [] }
    requires room { length passes.old.items ≤ vec_capacity room }
    ensures kept { passes.new.items ≡ map (fewer 1) passes.old.items }
    ensures new { AllZip (IsCutOff T.meaning) passes.old.items result.items }
{
    let mut parts = room;
    for i in 0..passes.len() {
        parts.push_reserved(cut_off(&mut passes[i], cells[i].turn_cell()));
    }
    parts
}
