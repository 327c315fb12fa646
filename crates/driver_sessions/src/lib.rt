//! Sessions over one driver at once: each is served in a thread of its own, by six rows of its own.
#![tactic(auto)]

mod closing;
mod seats;
mod serving;
mod session;

pub use closing::{Left, serve_and_close};
pub use driver_crossing::Driver;
pub use seats::{DriverRow, DriverRows};
pub use serving::serve_all;
pub use session::{Served, Session};
pub use six_rows::End;
