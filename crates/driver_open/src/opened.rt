// What a driver is opened with.
use crate::histories::HistoryRoom;
use def_keeper::Opening;
use driver_cells::{Cells, Row};
use files_disk::Files;
use monitor_link::Guests;
use virt_types::{ListOf, RequestList, Status};

/// A driver whose store was opened: its cells, the first pass of each, and what is to be done at once.
pub struct Opened<F: Files + Drop, K: Opening, G: Guests> {
    /// The list of domains, the store, and the domain of each slot.
    pub cells: Cells<F, K, G>,
    /// The first pass of each of them, with all its parts, and the maker of guests.
    pub row: Row<F, K, G>,
    /// The requests that start the domains which are to be started, by rising name.
    pub starts: RequestList,
    /// What each status file told, in the order of their names; none where one told nothing.
    pub statuses: ListOf<Option<Status>>,
    /// Room for the histories of the domains, for the end of the driver.
    pub room: HistoryRoom,
}
