//! A task of the domain that a request names: the list gives its slot, the task is run there by the passes of a row, and the
//! slot is released. What a call changed of the status of the domain's boot is reported to the store.
#![tactic(auto)]

mod counting;
mod laws;
mod serving;
mod slot;
mod status;
mod store;

pub use counting::unkept_of;
pub use driver_cells::{Cells, NO_FRONT, Outcome, Row, run_out, state_of};
pub use laws::{queries_read_now, tasks_answer_requests};
pub use serving::serve_held;
