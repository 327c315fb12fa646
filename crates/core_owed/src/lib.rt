//! What the history of a domain owes each registration that its cell keeps: each turn keeps it so, a chapter's end too.
#![tactic(auto)]

mod laws;

pub use laws::{opened_is_owed, pending_is_rest, turns_keep_owed, watch_is_owed_since};
