//! A sink that threads share: each message is put in a turn of its own, and each pass knows which
//! messages were its own.
#![tactic(auto)]

mod end;
mod kept;
mod laws;
mod mark;
mod message;
mod put;
mod spoken;
#[cfg(test)]
mod tests;
mod turns;

pub use end::close;
pub use laws::{a_fault_is_the_end, messages_add_up};
pub use mark::{Deed, Mark, Start};
pub use message::{Message, Place};
pub use spoken::{MOST_WAITING, Out, Unsaid};
pub use turns::{NotSaid, OutPass, flush_once, open, say_once};
