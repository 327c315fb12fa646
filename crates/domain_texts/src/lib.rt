//! The texts of domains: what a store keeps of a definition, and what a text in a store says.
#![tactic(auto)]

mod entry;
mod reading;
mod stored;
mod title;

pub use domain_xml::print_live;
pub use entry::{entry_of, print_domain};
pub use reading::read_domain;
pub use stored::read_stored;
pub use title::{title_of, titles_are_lines};
