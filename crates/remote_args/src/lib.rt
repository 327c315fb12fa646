//! Payloads of the two programs' procedures, read and written.
#![tactic(auto)]

mod address;
mod arguments;
mod call;
mod error;
mod error_reader;
mod event;
mod event_reader;
mod item;
mod reply;
mod reply_reader;
mod result;
mod result_item;
mod result_list;
mod result_list_reader;
mod result_reader;
mod written_call;

pub use call::{is_known, read_call};
pub use error_reader::read_error;
pub use event::{write_event, write_lost};
pub use event_reader::read_event;
pub use packet::WriteFault;
pub use procedure_spec::ArgFault;
pub use reply::{write_error, write_reply};
pub use reply_reader::read_reply;
pub use written_call::{call_words, write_call};
