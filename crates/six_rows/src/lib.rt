//! Six rows of a list, as many as one session takes.
#![tactic(auto)]

mod six;

pub use row_session::{End, SixRows, serve};
pub use six::{put_six, take_six};
