//! What a driver answers to the requests that list domains: all of them, those that are not active, and the titles of the
//! definitions in the store.
#![tactic(auto)]

mod listing;
mod lists;
mod rows;
mod stopping;
mod store;
mod telling;
mod titles;
mod titling;
mod whole;

pub use lists::{list_all, list_defined};
pub use titling::tell_titles;
