//! What the procedures of one domain ask of it: a query or a call, with its names, numbers and texts read, or
//! why it is refused before anybody looks at the domain.
#![tactic(auto)]

mod numbers;
mod reading;
mod refusing;
mod task;
mod texts;

pub use reading::{parse, task_of};
pub use task::{Parsed, Task};
pub use texts::{read_device, read_snapshot};
