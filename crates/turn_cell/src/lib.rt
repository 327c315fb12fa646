//! A value that callers change in turns, each turn on a ticket of its own. The turns form one
//! history, and each pass knows how far it has seen it and which marks there are its own.
#![tactic(auto)]

mod cell;
mod cell_of;
mod home;
mod kept;
mod laws;
mod plays;
mod sleepers;
mod steps;
mod turn;
mod view;

pub use cell::{NoMemory, Spent, TurnCell};
pub use cell_of::CellOf;
pub use kept::Kept;
pub use laws::{a_turn_tells, turns_add_up};
pub use turn::{Pass, Turn};
pub use view::{Knows, Stage, View};
