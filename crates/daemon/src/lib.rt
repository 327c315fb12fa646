//! A daemon over the directory of its definitions: it is opened, makes the first requests, serves one connection, and is
//! closed.
#![tactic(auto)]

mod closing;
mod daemon;
mod starting;

pub use closing::Closed;
pub use daemon::{Daemon, DaemonRow, DaemonRows, Ended};
pub use driver_service::{Books, DriverFault, Outcome};
pub use session_spec::End;
pub use starting::Outcomes;
