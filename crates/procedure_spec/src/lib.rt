//! Payloads: what each procedure's call and reply spell, the payload of an error, and addresses as texts.
#![tactic(auto)]

mod addresses;
mod announced;
mod arguments;
mod domain_requested;
mod fault;
mod laws;
mod numbers;
mod procedure;
mod requested;
mod shape;
mod table;
mod words;

pub use addresses::{address_of, address_text};
pub use announced::is_announced;
pub use arguments::{Arguments, Target};
pub use fault::ArgFault;
pub use laws::{payload_fits_packet, procedures_have_their_lines};
pub use numbers::{call_numbers, result_shape};
pub use procedure::Procedure;
pub use requested::request;
pub use shape::{ArgumentShape, ResultShape, TargetShape};
pub use table::{OWN, PROCEDURES, REMOTE, Row, find};
pub use words::{
    ERROR_DOMAIN, ERROR_LEVEL, EVENT, EVENT_LOST, NAMES_BOUND, PACKET_BOUND, TITLE_BOUND, VERSION,
};
