//! What an ask of a domain asks of the store: the change, or the image, that is made of it, and what it is answered;
//! and the image that is read for a restore.
#![tactic(auto)]

mod answering;
mod answers;
mod images;
mod put;
mod restoring;
mod turning;

pub use answering::answer_in;
pub use def_keeper::{Keeper, Opening};
pub use restoring::{SavedGuest, SavedRead, read_saved_in};
pub use turning::ask_store;
