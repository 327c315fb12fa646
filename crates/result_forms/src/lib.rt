//! Whether a value has the form of what a procedure replies.
#![tactic(auto)]

mod shape;

pub use shape::has_shape;
