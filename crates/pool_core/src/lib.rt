//! The book of pools: its table of pools and volumes, and its turns.
#![tactic(auto)]

mod book;
mod chronicle;
mod entry;
mod found;
mod kept;
mod marking;
mod refusals;
mod story;
mod table;
mod turns;
mod volumes;

pub use book::PoolBook;
pub use found::{FoundPool, FoundPoolList};
pub use refusals::{Tested, plain};
pub use table::Table;
pub use turns::{
    PoolPass, PoolTurn, autostart_in, define_in, drop_volume, drop_volume_in, make_volume,
    make_volume_in, may_autostart_in, may_define_in, may_undefine_in, refuse_in, start, start_in,
    stop, stop_in, undefine_in,
};
