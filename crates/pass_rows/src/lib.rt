//! Rows of passes, one of each cell, by which activities take turns at all of them.
#![tactic(auto)]

mod cutting;
mod joining;
mod laws;
mod passes;
mod resting;
mod row;
mod row_list;
mod splitting;

pub use laws::{all_close, parts_add_up, rows_gather};
pub use passes::{OtherPasses, Passes};
pub use resting::{PassState, RestingPass};
pub use row::RowOf;
pub use row_list::RowListOf;
