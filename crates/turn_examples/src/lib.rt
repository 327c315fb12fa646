//! A counter in a turn cell, whose marks are the amounts that were added: an example.
#![tactic(auto)]

mod counter;
mod crowd;
mod kept;
mod turns;
mod two;

pub use counter::{AddFault, Amount, Counter};
pub use crowd::{add_by_many, cut_off};
pub use turns::{CounterPass, CounterTurn, NotAdded, add_in, add_once, look_once};
pub use two::{add_by_two, add_many, count_by_two};
