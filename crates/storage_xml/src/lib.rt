//! Storage pools and volumes as texts: read, filled in, and printed.
#![tactic(auto)]

mod laws;
mod pool;
mod pool_tree;
mod volume;
mod volume_tree;

pub use laws::{
    filled_pool_is_sound, printed_pool_reads_back, printed_volume_reads_back, read_pool_is_sound,
    read_volume_is_sound,
};
pub use pool::{fill, print, read};
pub use text_spec::{DefFault, DefKind};
pub use volume::{print_volume, read_volume};
