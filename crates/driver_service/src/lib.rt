//! The driver as what serves the requests of sessions.
#![tactic(auto)]

mod saying;
mod service;
mod serving;

pub use driver::{Books, Driver, DriverFault, Outcome, Row, RowList, unkept_of};
pub use service::DriverService;
pub use serving::is_served;
