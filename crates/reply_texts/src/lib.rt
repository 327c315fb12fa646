//! What callers are told of a domain's reply: values of its cell as references and texts.
#![tactic(auto)]

mod printing;

pub use domain_texts::read_domain;
pub use printing::print_reply;
