//! Laws of definition texts: what reading gives can be written, what is printed is read, what is read
//! is sound, and what is sound and filled in stays so and fits a text.
#![tactic(auto)]

mod again;
mod back;
mod fitting;
mod sound;
mod writable;

pub use again::{
    printed_device_reads_back, printed_domain_reads_back, read_device_reads_back,
    read_domain_reads_back,
};
pub use back::{printed_device_is_read, printed_domain_is_read};
pub use fitting::{filled_device_fits, filled_domain_fits};
pub use sound::{
    filled_device_is_sound, filled_domain_is_sound, read_device_is_sound, read_domain_is_sound,
};
pub use writable::read_is_writable;
