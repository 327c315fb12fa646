//! A driver is closed: its cells are closed with the passes of a row that has all their parts.
#![tactic(auto)]

mod books;
mod closing;
mod laws;

pub use books::Books;
pub use closing::close_cells;
pub use driver_open::{DriverFault, HistoryRoom, Opened, RowList, more, open_cells};
pub use laws::{keepers_stay_whole, opened_row_is_whole, split_row_is_whole};
