//! What a session refuses and replies, and what its end says: the definitions.
#![tactic(auto)]

mod end;

pub use end::End;
