//! Snapshots as texts: what a caller says of one, read and printed, and what is told of one.
#![tactic(auto)]

mod laws;
mod print;
mod reading;
mod tree;

pub use laws::{kept_snapshot_reads_back, printed_snapshot_reads_back, read_snapshot_is_sound};
pub use print::{print_kept, print_snapshot};
pub use reading::read;
pub use text_spec::{DefFault, DefKind};
