//! A domain's cell, which callers change in turns: a domain between two turns, with the link of its guest. Each turn is
//! one step of the domain's history, and leaves what that step may leave; and the guest is asked by the pass whose call
//! is open, while no turn is held.
#![tactic(auto)]

mod calls;
mod cell;
mod cell_clients;
mod cell_guests;
mod cell_laws;
mod cell_operations;
mod clients;
mod guests;
mod kept;
mod laws;
mod link;
mod listening;
mod looking;
mod made;
mod next;
mod operations;
mod ticket;
mod turns;

pub use cell::DomainCell;
pub use cell_laws::{still_turns_change, turns_change};
pub use core_steps::{Chronicle, OperationLook, Step, WatchFault, takes_up};
pub use event_queue::Taken;
pub use kept::Share;
pub use laws::{
    free_shares_begin, free_shares_look, free_shares_take_up, open_shares_go_back,
    operation_shares_end, operation_shares_phase, registered_shares_take,
};
pub use link::{Here, keep, keep_or_take, kill, put_ears, put_monitor, take_ears, take_monitor};
pub use next::Next;
pub use ticket::{Back, Look, PhaseLook, Ticket, hand_back, hand_look, hand_phase};
pub use turns::DomainTurns;
