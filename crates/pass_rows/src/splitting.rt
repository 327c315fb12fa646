// A row becomes many.
ghost use Rattle.std.specs.Prelude.{◌≡◌, ◌≤◌, ◌<◌, ◌+◌, ℕ, [], length, map, IfErr, IfOk};
ghost use Rattle.std.specs.List.{All};
ghost use Rattle.std.specs.Vec.{vec_capacity};
ghost use Rattle.pass_rows.specs.Rows.{IsOf, HasRowParts, IsCutOffRow, HasSplit, IsIdleRow, IsSplit, KeepsPasses, fewer_row};

use crate::cutting::{cut_off, cut_off_each};
use crate::passes::Passes;
use crate::resting::RestingPass;
use crate::row::RowOf;
use crate::row_list::RowListOf;
use monitor_link::Guests;
use std::alloc::Global;
use std::marker::Model;
use turn_cell::{CellOf, Kept, TurnCell};
use types_base::NoMemory;

// What a new row takes memory for. Contracts see how many passes fit.
#[derive(Drop)]
struct Blank<D: Kept, G> {
    passes: Vec<RestingPass<D>>,
    guests: G,
}

impl<D: Kept, G> Model for Blank<D, G> {
    ghost use Rattle.std.specs.Prelude.{◌≡◌, ℕ, []};
    ghost use Rattle.std.specs.Vec.{vec_capacity};

    ghost Value = { ℕ };

    ghost view = { λ b. vec_capacity b.passes };

    ghost invariant = { λ b. b.passes.items ≡ [] };
}

fn make_blank<D: Kept, G: Guests + Drop>(
    alloc: Global,
    guests: &mut G,
    width: usize,
) -> Result<Blank<D, G>, NoMemory>
    ensures ok { IfOk result (λ blank. width ≤ blank) }
    ensures faults { G.faults guests.old ≤ G.faults guests.new }
{
    let passes = match Vec::with_capacity(alloc, width) {
        Ok(passes) => passes,
        Err(_) => return Err(NoMemory),
    };
    match guests.another() {
        Ok(guests) => Ok(Blank { passes, guests }),
        Err(NoMemory) => Err(NoMemory),
    }
}

// So many of them.
fn make_blanks<D: Kept, G: Guests + Drop>(
    alloc: Global,
    guests: &mut G,
    width: usize,
    count: u32,
) -> Result<Vec<Blank<D, G>>, NoMemory>
    ensures count { IfOk result (λ blanks. length blanks.items ≡ count) }
    ensures width { IfOk result (λ blanks. All (λ blank. width ≤ blank) blanks.items) }
    ensures faults { G.faults guests.old ≤ G.faults guests.new }
{
    let mut all = match Vec::with_capacity(alloc, count as usize) {
        Ok(all) => all,
        Err(_) => return Err(NoMemory),
    };
    for _ in 0..count {
        match make_blank(alloc, guests, width) {
            Ok(blank) => all.push_reserved(blank),
            Err(NoMemory) => return Err(NoMemory),
        }
    }
    Ok(all)
}

// Cuts a part off each pass of the row.
fn cut_row<L: Kept + Drop, S: Kept + Drop, D: Kept + Drop, C: CellOf<D>, G>(
    row: &mut RowOf<L, S, D, G>,
    list: &TurnCell<L>,
    store: &TurnCell<S>,
    domains: &[C],
    blank: Blank<D, G>,
) -> RowOf<L, S, D, G>
    requires own { IsOf list.now store.now (map C.place domains.now) row.old }
    requires parts { HasRowParts 2 row.old }
    requires room { length row.old.domains ≤ blank }
    ensures kept { row.new ≡ fewer_row 1 row.old }
    ensures new { IsCutOffRow L.meaning S.meaning D.meaning row.old result }
{
    let Blank { passes, guests } = blank;
    RowOf {
        list: cut_off(&mut row.list, list),
        store: cut_off(&mut row.store, store),
        domains: Passes {
            all: cut_off_each(&mut row.domains.all, domains, passes),
        },
        guests,
        unkept: 0,
    }
}

// Cuts as many rows off as there are blanks, and puts the row after them.
fn cut_rows<L: Kept + Drop, S: Kept + Drop, D: Kept + Drop, C: CellOf<D>, G: Drop>(
    row: RowOf<L, S, D, G>,
    list: &TurnCell<L>,
    store: &TurnCell<S>,
    domains: &[C],
    blanks: Vec<Blank<D, G>>,
    room: Vec<RowOf<L, S, D, G>>,
) -> Vec<RowOf<L, S, D, G>>
    requires own { IsOf list.now store.now (map C.place domains.now) row }
    requires parts { HasRowParts (length blanks.items + 1) row }
    requires width { All (λ blank. length row.domains ≤ blank) blanks.items }
    requires empty { room.items ≡ [] }
    requires room { length blanks.items < vec_capacity room }
    ensures { IsSplit L.meaning S.meaning D.meaning (length blanks.items + 1) row result.items }
{
    let mut row = row;
    let mut blanks = blanks;
    let mut rows = room;
    while let Some(blank) = blanks.pop() {
        rows.push_reserved(cut_row(&mut row, list, store, domains, blank));
    }
    rows.push_reserved(row);
    rows
}

impl<L: Kept + Drop, S: Kept + Drop, D: Kept + Drop, G: Guests + Drop> RowOf<L, S, D, G> {
    /// Makes so many rows of this one: itself, and new ones, whose passes are cut off its own, and of which no status is
    /// counted. Where there is no memory, or no maker of guests for a new row, it comes back with the same passes.
    pub fn split<C: CellOf<D>>(
        self,
        list: &TurnCell<L>,
        store: &TurnCell<S>,
        domains: &[C],
        alloc: Global,
        rows: u32,
    ) -> Result<RowListOf<L, S, D, G>, (RowOf<L, S, D, G>, NoMemory)>
        requires some { 1 ≤ rows }
        requires own { IsOf list.now store.now (map C.place domains.now) self }
        requires parts { HasRowParts rows self }
        ensures ok { IfOk result (λ all. HasSplit L.meaning S.meaning D.meaning G.faults rows self all.list) }
        ensures own { IfOk result (λ all. All (IsOf list.now store.now (map C.place domains.now)) all.list) }
        ensures idle { IfOk result (λ all. IsIdleRow L.meaning S.meaning D.meaning self → All (IsIdleRow L.meaning S.meaning D.meaning) all.list) }
        ensures passes { IfErr result (λ e. KeepsPasses self e.0) }
        ensures failed { IfErr result (λ e. G.faults self.guests ≤ G.faults e.0.guests) }
    {
        let mut row = self;
        let width = row.domains.len();
        let room = match Vec::with_capacity(alloc, rows as usize) {
            Ok(room) => room,
            Err(_) => return Err((row, NoMemory)),
        };
        let blanks = match make_blanks(alloc, &mut row.guests, width, rows - 1) {
            Ok(blanks) => blanks,
            Err(NoMemory) => return Err((row, NoMemory)),
        };
        Ok(RowListOf {
            rows: cut_rows(row, list, store, domains, blanks, room),
        })
    }
}
