//! Values that contracts alone see.
#![tactic(auto)]

mod said;

pub use said::Said;
