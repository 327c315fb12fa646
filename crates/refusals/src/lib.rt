//! The refusals that keep what was asked for, and the replies of calls that leave no Done.
#![tactic(auto)]

mod keeping;
mod room;

pub use keeping::{refuse_bytes, refuse_number, refuse_uuid};
pub use room::{ReplyRoom, no_memory};
