//! Histories in chapters, their fronts, what a pass keeps of its own marks, the stamps by which
//! marks bear the number of a pass, and tallies of such numbers. Contracts alone see them.
#![tactic(auto)]

mod history;
mod stamp;
mod tally;

pub use history::{Ended, History};
pub use stamp::Stamp;
pub use tally::Tally;
