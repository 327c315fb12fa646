// Sessions are served over a driver, and then it is closed.
ghost use Rattle.std.specs.Prelude.{◌≡◌, ◌<◌, ◌≤◌, ◌*◌, ◌∷◌, [], IfSome, length, vec_len};
ghost use Rattle.std.specs.List.{All};
ghost use Rattle.def_keeper.specs.Safe.{KeepsAll};
ghost use Rattle.driver_crossing.specs.Below.driver.Cells.{BecomesMany, IsRowOf};
ghost use Rattle.driver_crossing.specs.Below.driver_close.Closed.{HasClosed, IsWhole};
ghost use Rattle.driver_crossing.specs.Below.held_tasks.OfRows.{IsReadyRow};
ghost use Rattle.driver_sessions.specs.Closing.{HasServedAll, HasServedBy};

use crate::seats::{DriverRow, DriverRows};
use crate::serving::serve_all;
use crate::session::{Served, Session};
use def_keeper::Opening;
use driver_crossing::{Books, Driver, ThreadGuests};
use files_disk::Files;
use monitor_link::Guests;
use packet::{Sink, Source};
use std::alloc::Global;
use std::sync::Wait;
use std::thread::Threads;
use virt_types::{Gate, Random};

/// How many sessions a driver has at most.
const MOST: usize = 1000;

/// How many rows a session takes.
const ROWS: u32 = 6;

/// What is left of a driver that served sessions.
#[derive(Drop)]
pub struct Left<F, C> {
    /// The sessions, in order.
    pub served: Vec<C>,
    /// The driver's files.
    pub files: F,
    /// What happened in its cells.
    pub books: Books,
}

// Closes a driver with all of its rows. None where one of their passes has no ticket left.
fn close_all<F: Files + Drop, K: Opening, G: Guests + Drop, C: Drop>(
    driver: Driver<F, K, G>,
    rows: DriverRows<F, K, G>,
    served: Vec<C>,
) -> Option<Left<F, C>>
    requires some { 0 < length rows.list }
    requires own { All (IsRowOf driver) rows.list }
    requires whole { IsWhole rows.list }
    ensures closed { IfSome result (λ left. HasClosed F.told rows.list left.files left.books.list left.books.store left.books.cells.items) }
    ensures safe { IfSome result (λ left. K.sound → KeepsAll (F.told left.files) left.books.store) }
    ensures served { IfSome result (λ left. left.served ≡ served) }
{
    if !rows.is_idle() {
        return None;
    }
    let (files, books) = driver.close(rows);
    Some(Left {
        served,
        files,
        books,
    })
}

// How many rows so many sessions take.
fn rows_for(sessions: usize) -> u32
    requires { sessions ≤ 1000 }
    ensures { result ≡ 6 * sessions }
{
    ROWS * sessions as u32
}

// The rows of so many sessions, which this one becomes. None where there is no memory, or no maker of guests for a new row.
fn share_out<F: Files + Drop, K: Opening, G: Guests + Drop>(
    driver: &Driver<F, K, G>,
    row: DriverRow<F, K, G>,
    sessions: usize,
) -> Option<DriverRows<F, K, G>>
    requires own { IsRowOf driver.now row }
    requires ready { IsReadyRow row }
    requires whole { IsWhole (row ∷ []) }
    requires some { 1 ≤ sessions }
    requires few { sessions ≤ 1000 }
    ensures made { IfSome result (λ rows. BecomesMany F.told G.faults (6 * sessions) row rows.list) }
    ensures six_each { IfSome result (λ rows. length rows.list ≡ 6 * sessions) }
    ensures own { IfSome result (λ rows. All (IsRowOf driver.now) rows.list) }
    ensures ready { IfSome result (λ rows. All IsReadyRow rows.list) }
    ensures whole { IfSome result (λ rows. IsWhole rows.list) }
{
    match driver.more(row, rows_for(sessions)) {
        Ok(rows) => Some(rows),
        Err(_) => None,
    }
}

// Serves all sessions by these rows, which are all rows of the driver, and closes it.
fn serve_by<
    R: Threads + Wait + Sync,
    F: Files + Drop + Send,
    K: Opening + Send + Sync,
    G: ThreadGuests + Drop + Send,
    S: Source + Drop + Send,
    O: Sink + Drop + Send,
    N: Random + Drop + Send,
    T: Gate + Drop + Send,
>(
    rt: &R,
    alloc: Global,
    driver: Driver<F, K, G>,
    rows: DriverRows<F, K, G>,
    sessions: Vec<Session<S, O, N, T>>,
) -> Option<Left<F, Served<S, O, N, T>>>
    requires some { 0 < length rows.list }
    requires six_each { length rows.list ≡ 6 * vec_len sessions }
    requires own { All (IsRowOf driver) rows.list }
    requires ready { All IsReadyRow rows.list }
    requires whole { IsWhole rows.list }
    ensures { IfSome result (λ left. HasServedBy F.told K.sound F.faults G.faults G.E.ends G.E.faults G.E.unheard S.left S.faults O.held O.faults N.drawn driver rows.list
        sessions.items left.served.items left.files left.books.list left.books.store left.books.cells.items) }
{
    match serve_all(rt, alloc, &driver, rows, sessions) {
        Some((back, served)) => close_all(driver, back, served),
        None => None,
    }
}

/// Serves all sessions over a driver at once, each in a thread of its own and by six rows that are cut off this one, which is
/// all of the driver's rows. Then the driver is closed with all rows. None where there are no sessions or more than a
/// thousand, where there is no maker of guests for a new row, where a pass of the rows has no ticket left in the end, or
/// where there is no memory.
pub fn serve_and_close<
    R: Threads + Wait + Sync,
    F: Files + Drop + Send,
    K: Opening + Send + Sync,
    G: ThreadGuests + Drop + Send,
    S: Source + Drop + Send,
    O: Sink + Drop + Send,
    N: Random + Drop + Send,
    T: Gate + Drop + Send,
>(
    rt: &R,
    alloc: Global,
    driver: Driver<F, K, G>,
    row: DriverRow<F, K, G>,
    sessions: Vec<Session<S, O, N, T>>,
) -> Option<Left<F, Served<S, O, N, T>>>
    requires own { IsRowOf driver row }
    requires ready { IsReadyRow row }
    requires whole { IsWhole (row ∷ []) }
    ensures { IfSome result (λ left. HasServedAll F.told K.sound F.faults G.faults G.E.ends G.E.faults G.E.unheard S.left S.faults O.held O.faults N.drawn driver row
        sessions.items left.served.items left.files left.books.list left.books.store left.books.cells.items) }
{
    let count = sessions.len();
    if count < 1 || count > MOST {
        return None;
    }
    match share_out(&driver, row, count) {
        Some(rows) => serve_by(rt, alloc, driver, rows, sessions),
        None => None,
    }
}
