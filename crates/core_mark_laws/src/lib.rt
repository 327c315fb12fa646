//! Laws of every mark of a domain's history: no mark makes its state untidy, or lets another guest run than its operation's own.
#![tactic(auto)]

mod laws;

pub use laws::{every_mark_keeps_guests, every_mark_keeps_tidy, opened_is_tidy, stored_plans_stay};
