//! A store is checked: a line for each of its files, with nothing changed.
#![tactic(auto)]

mod check;
mod checked;
mod judging;
mod lines;

pub use check::check_store;
pub use checked::{Checked, status_of};
