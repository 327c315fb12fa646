// Seats at the rows of a driver: each of many takes six, and gives them back in the same order.
ghost use Rattle.std.specs.Prelude.{◌≡◌, ◌≤◌, ◌*◌, [], length, vec_len};
ghost use Rattle.std.specs.Vec.{vec_capacity};
ghost use Rattle.driver_sessions.specs.Seats.{holders_of, rows_of};

use def_keeper::Opening;
use driver_crossing::{Row, RowList};
use files_disk::Files;
use monitor_link::Guests;
use six_rows::{SixRows, put_six, take_six};
use std::marker::Model;

/// A row of a driver.
pub type DriverRow<F, K, G> = Row<F, K, G>;

/// Rows of it, with room for more.
pub type DriverRows<F, K, G> = RowList<F, K, G>;

/// Somebody with six rows of a driver.
#[derive(Drop)]
pub(crate) struct Seated<F: Files + Drop, K: Opening, G: Guests + Drop, C> {
    /// The rows.
    pub(crate) rows: SixRows<Row<F, K, G>>,
    /// Who has them.
    pub(crate) holder: C,
}

impl<F: Files + Drop, K: Opening, G: Guests + Drop, C> Model for Seated<F, K, G, C> {
    ghost use Rattle.driver_sessions.specs.Seats.{Seat};

    ghost Value = { Seat G C };

    ghost view = { λ s. record { rows = s.rows; holder = s.holder } };
}

/// Each takes six rows, the last one the last six, into room that is there. No row is left.
pub(crate) fn seat_all<F: Files + Drop, K: Opening, G: Guests + Drop, C: Drop>(
    rows: RowList<F, K, G>,
    holders: Vec<C>,
    room: Vec<Seated<F, K, G, C>>,
) -> (RowList<F, K, G>, Vec<Seated<F, K, G, C>>)
    requires six_each { length rows.list ≡ 6 * vec_len holders }
    requires none { room.items ≡ [] }
    requires room { vec_len holders ≤ vec_capacity room }
    ensures rows { rows.list ≡ rows_of result.1.items }
    ensures holders { holders.items ≡ holders_of result.1.items }
    ensures count { vec_len result.1 ≡ vec_len holders }
    ensures empty { result.0.list ≡ [] }
    ensures room { 6 * vec_len result.1 ≤ result.0.room }
{
    let mut rows = rows;
    let mut holders = holders;
    let mut seats = room;
    while let Some(holder) = holders.pop() {
        let six = take_six(&mut rows);
        seats.push_reserved(Seated { rows: six, holder });
    }
    (rows, seats)
}

/// All give their rows back, the last one first, into room that is there.
pub(crate) fn unseat_all<F: Files + Drop, K: Opening, G: Guests + Drop, C: Drop>(
    rows: RowList<F, K, G>,
    seats: Vec<Seated<F, K, G, C>>,
    room: Vec<C>,
) -> (RowList<F, K, G>, Vec<C>)
    requires empty { rows.list ≡ [] }
    requires rows { 6 * vec_len seats ≤ rows.room }
    requires none { room.items ≡ [] }
    requires room { vec_len seats ≤ vec_capacity room }
    ensures rows { result.0.list ≡ rows_of seats.items }
    ensures holders { result.1.items ≡ holders_of seats.items }
{
    let mut rows = rows;
    let mut seats = seats;
    let mut holders = room;
    while let Some(one) = seats.pop() {
        let Seated { rows: six, holder } = one;
        put_six(&mut rows, six);
        holders.push_reserved(holder);
    }
    (rows, holders)
}
