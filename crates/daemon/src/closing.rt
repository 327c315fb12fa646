// The end of a daemon.
ghost use Rattle.std.specs.Prelude.{◌≡◌, ◌<◌, length};
ghost use Rattle.std.specs.List.{All};
ghost use Rattle.daemon.specs.Closing.{IsEndedWith, unkept_in};
ghost use Rattle.driver_service.specs.Below.driver.Cells.{IsRowOf};
ghost use Rattle.driver_service.specs.Below.driver_close.Closed.{IsWhole};
ghost use Rattle.driver_service.specs.Below.held_tasks.OfRows.{IsReadyRow};

use crate::daemon::DaemonRows;
use def_keeper::Opening;
use driver_service::{Books, Driver, unkept_of};
use files_disk::Files;
use monitor_link::Guests;

/// What is left of a daemon that was closed.
#[derive(Drop)]
pub struct Closed<F> {
    /// The files of its store.
    pub files: F,
    /// The histories of its cells.
    pub books: Books,
    /// How many statuses of boots its calls could not keep, for the log.
    pub unkept: u64,
}

// How many statuses of boots the calls of these rows could not keep. The rows are as they were afterwards.
fn unkept_by<F: Files + Drop, K: Opening, G: Guests + Drop>(rows: &mut DaemonRows<F, K, G>) -> u64
    ensures rows { rows.new.list ≡ rows.old.list }
    ensures room { rows.new.room ≡ rows.old.room }
    ensures unkept { result ≡ unkept_in rows.old.list }
{
    match rows.pop() {
        None => 0,
        Some(row) => {
            let (row, last) = unkept_of(row);
            let others = unkept_by(rows);
            rows.push(row);
            others.saturating_add(last)
        }
    }
}

/// Closes a driver with all of its rows, for which no cell keeps anything. None exactly where one of their passes has no
/// ticket left: then it can't be closed.
pub(crate) fn close<F: Files + Drop, K: Opening, G: Guests + Drop>(
    driver: Driver<F, K, G>,
    mut rows: DaemonRows<F, K, G>,
) -> Option<Closed<F>>
    requires some { 0 < length rows.list }
    requires own { All (IsRowOf driver) rows.list }
    requires ready { All IsReadyRow rows.list }
    requires whole { IsWhole rows.list }
    ensures { IsEndedWith F.told K.sound rows.list result }
{
    if !rows.is_idle() {
        return None;
    }
    let unkept = unkept_by(&mut rows);
    let (files, books) = driver.close(rows);
    Some(Closed {
        files,
        books,
        unkept,
    })
}
