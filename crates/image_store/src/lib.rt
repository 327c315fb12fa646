//! Images of guests: what a save or a dump wrote, in files of their own.
#![tactic(auto)]

mod laws;
mod reading;
mod spelling;
mod store;

pub use laws::{
    fields_are_named, holds_one_image, images_are_right, images_read_back, images_stay,
    spells_its_image,
};
pub use store::{read_image, write_image};
