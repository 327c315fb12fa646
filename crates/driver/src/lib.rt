//! The driver: many activities call it at once, each with a row of its own, and each request gets one answer, which names
//! what it rests on.
#![tactic(auto)]

mod answers;
mod serving;
mod the_driver;

pub use driver_close::{Books, DriverFault, RowList};
pub use held_tasks::{Outcome, Row, unkept_of};
pub use monitor_link::Guests;
pub use request_asks::Opening;
pub use the_driver::Driver;
