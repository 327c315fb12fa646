//! What of a driver may go to another thread, and what threads may share. Its types hold trees of snapshots, which reach
//! themselves, so this is shown type by type here, and not anew wherever a driver meets threads.
#![tactic(auto)]

use def_keeper::Opening;
pub use domain_threads::ThreadGuests;
pub use driver_service::{Books, Driver, DriverService, Row, RowList};
use files_disk::Files;

fn crosses<T: Send>() {}

fn is_shared<T: Sync>() {}

/// A row may go to another thread, where the files and the maker of guests may. It does nothing.
pub fn row_crosses<
    F: Files + Drop + Send,
    K: Opening + Send + Sync,
    G: ThreadGuests + Drop + Send,
>() {
    crosses::<Row<F, K, G>>();
}

/// Threads may share a driver, where the files and the maker of guests may go to another thread. It does nothing.
pub fn driver_is_shared<
    F: Files + Drop + Send,
    K: Opening + Send + Sync,
    G: ThreadGuests + Drop + Send,
>() {
    is_shared::<Driver<F, K, G>>();
}
