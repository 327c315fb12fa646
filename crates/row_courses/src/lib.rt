//! What a session over rows of passes shows of them to its end: laws.
#![tactic(auto)]

mod laws;

pub use laws::{answers_hold_to_the_end, no_two_calls_rest_on_one_mark, rows_go_on};
