// The gates of sessions.
use std::sync::Wait;
use story_guests::{SharedSignals, Signal};
use types_base::Gate;

/// Where a session is before a call is run.
const BEFORE: u32 = 1;

/// Where it is once the call's message was put.
const AFTER: u32 = 2;

/// A gate that may wait for a signal before each call, and may give one once it was answered.
#[derive(Drop)]
pub(crate) struct StoryGate<H> {
    pub(crate) rt: H,
    pub(crate) signals: SharedSignals,
    /// What it waits for.
    pub(crate) before: Option<Signal>,
    /// What it gives.
    pub(crate) after: Option<Signal>,
}

impl<H: Wait> Gate for StoryGate<H> {
    fn at(&self, point: u32) {
        if point == BEFORE {
            if let Some(signal) = self.before {
                self.signals.wait_for(&self.rt, signal, 1);
            }
        } else if point == AFTER {
            if let Some(signal) = self.after {
                self.signals.give(signal);
            }
        }
    }
}
