//! The desk of one row: who answers what a call of the row asks. Commands go to the guest's monitor, guests are made by the
//! row's maker, and the store answers in turns of the row's pass.
#![tactic(auto)]

mod answering;
mod desk;
mod door;
mod guests;
mod handed;
mod laws;
mod report;

pub use desk::RowDesk;
pub use handed::Handed;
pub use laws::store_asks_have_marks;
pub use report::Report;
