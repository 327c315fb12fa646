//! The guests of stories, and the signals that the threads of a story give one another: so what a story tells does not depend
//! on who is faster.
#![tactic(auto)]

mod guests;
mod signals;

pub use guests::{Manner, StoryEars, StoryGuests, StoryKiller, StoryMonitor, Withheld};
pub use signals::{MOST_RESTS, SharedSignals, Signal, Signals};
