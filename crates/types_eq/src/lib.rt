//! Whether two values of the system's words are the same: what `==` of a derive doesn't promise of
//! values that hold collections.
#![tactic(auto)]

mod answer;
mod ask;
mod call;
mod definition;
mod device;
mod domain;
mod object;
mod parts;
mod plain;
mod request;
mod told;
mod value;

pub use parts::Same;
