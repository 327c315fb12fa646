//! Devices that are added to a guest that runs, and removed: what attaching and detaching one asks,
//! and what the answers give.
//!
//! A guest's devices each have a slot, 0x02 to 0x1f, chosen as the least that is free. Nothing here
//! copies a guest: a device that comes is moved into its lists, whose room is set aside before the
//! first ask, and one that goes is taken out of them.
#![tactic(auto)]

mod asks;
mod attaching;
mod calls;
mod changes;
mod detaching;
mod faults;
mod keys;
mod room;
mod set_aside;
mod slots;

pub use calls::{finish, next, parts};
pub use changes::without_slot;
pub use room::RoomFor;
pub use set_aside::{NewDevice, Parts};
