//! Which jobs may run side by side, and who waits until a domain's job is free.
#![tactic(auto)]

mod mask;
mod passes;
mod queue;
mod record;
mod waiters;
mod waiting;

pub use queue::Queue;
pub use record::{JobRecord, admits, may_begin, may_take_up};
pub use waiters::{Waiters, WaitersFull};
pub use waiting::Waiter;
