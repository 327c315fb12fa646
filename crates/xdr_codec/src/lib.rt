//! Items of XDR (RFC 4506), written and read: each has one spelling, and each fault its place.
#![tactic(auto)]

mod bytes;
mod number;
mod reader;
mod rest;
mod writer;

pub use reader::Reader;
pub use wire_spec::XdrFault;
pub use writer::Writer;
