// Passes are put together.
ghost use Rattle.std.specs.Prelude.{◌≡◌, ◌<◌, length, map};
ghost use Rattle.std.specs.List.{All};
ghost use Rattle.pass_rows.specs.Cutting.{cell_of};
ghost use Rattle.pass_rows.specs.Joining.{all_but_last, AreJoined, AreJoinedRows, HasJoined, HoldsNothing, HoldsNothingRow, IsJoined, IsJoinedRow};
ghost use Rattle.pass_rows.specs.Rows.{IsOf};

use crate::passes::Passes;
use crate::resting::RestingPass;
use crate::row::RowOf;
use crate::row_list::RowListOf;
use core::mem;
use turn_cell::{CellOf, Kept, TurnCell};

// A pass that is put into another, and their cell.
struct Given<'a, T: Kept> {
    pass: RestingPass<T>,
    cell: &'a TurnCell<T>,
}

fn glue<'a, T: Kept + Drop>(one: RestingPass<T>, given: Given<'a, T>) -> (RestingPass<T>, ())
    requires one { one.cell ≡ given.cell.now }
    requires other { given.pass.cell ≡ given.cell.now }
    requires empty { HoldsNothing T.meaning given.pass }
    ensures { IsJoined T.meaning one given.entry.pass result.0 }
{
    let Given { pass: other, cell } = given;
    let state = one.state().with(other.state());
    let both = cell.join(one.into_pass(), other.into_pass());
    (RestingPass::new(both, state), ())
}

/// Puts a pass into another of the same cell. Nothing is kept for it.
pub(crate) fn glue_on<T: Kept + Drop>(
    one: &mut RestingPass<T>,
    other: RestingPass<T>,
    cell: &TurnCell<T>,
)
    requires one { one.old.cell ≡ cell.now }
    requires other { other.cell ≡ cell.now }
    requires empty { HoldsNothing T.meaning other }
    ensures { IsJoined T.meaning one.old other one.new }
{
    let given = Given { pass: other, cell };
    mem::replace_with(one, given, glue)
}

/// The same of passes one by one.
pub(crate) fn glue_on_each<T: Kept + Drop, C: CellOf<T>>(
    ones: &mut Vec<RestingPass<T>>,
    others: Vec<RestingPass<T>>,
    cells: &[C],
)
    requires ones { map cell_of ones.old.items ≡ map C.place cells.now }
    requires others { map cell_of others.items ≡ map C.place cells.now }
    requires empty { All (HoldsNothing T.meaning) others.items }
    ensures { AreJoined T.meaning ones.old.items others.items ones.new.items }
{
    let mut others = others;
    while let Some(other) = others.pop() {
        let place = others.len();
        glue_on(&mut ones[place], other, cells[place].turn_cell());
    }
}

// Puts the passes of a row into those of another.
fn join_row<L: Kept + Drop, S: Kept + Drop, D: Kept + Drop, C: CellOf<D>, G: Drop>(
    one: &mut RowOf<L, S, D, G>,
    other: RowOf<L, S, D, G>,
    list: &TurnCell<L>,
    store: &TurnCell<S>,
    domains: &[C],
)
    requires one { IsOf list.now store.now (map C.place domains.now) one.old }
    requires other { IsOf list.now store.now (map C.place domains.now) other }
    requires empty { HoldsNothingRow L.meaning S.meaning D.meaning other }
    ensures { IsJoinedRow L.meaning S.meaning D.meaning one.old other one.new }
{
    let RowOf {
        list: list_pass,
        store: store_pass,
        domains: Passes { all },
        guests: _,
        unkept: _,
    } = other;
    glue_on(&mut one.list, list_pass, list);
    glue_on(&mut one.store, store_pass, store);
    glue_on_each(&mut one.domains.all, all, domains);
}

impl<L: Kept + Drop, S: Kept + Drop, D: Kept + Drop, G: Drop> RowListOf<L, S, D, G> {
    /// Puts all rows together: each pass of the others is put into that of the last row, whose maker of guests stays.
    pub fn joined<C: CellOf<D>>(
        self,
        list: &TurnCell<L>,
        store: &TurnCell<S>,
        domains: &[C],
    ) -> RowOf<L, S, D, G>
        requires some { 0 < length self.list }
        requires own { All (IsOf list.now store.now (map C.place domains.now)) self.list }
        requires empty { All (HoldsNothingRow L.meaning S.meaning D.meaning) (all_but_last self.list) }
        ensures joined { HasJoined L.meaning S.meaning D.meaning self.list result }
        ensures own { IsOf list.now store.now (map C.place domains.now) result }
    {
        let RowListOf { mut rows } = self;
        let mut all = rows.pop().unwrap();
        while let Some(row) = rows.pop() {
            join_row(&mut all, row, list, store, domains);
        }
        all
    }
}
