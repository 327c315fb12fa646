// The clients of stories: what they say, and when.
use crate::stories::Step;
use packet::Source;
use std::sync::Wait;
use story_guests::{SharedSignals, Signal};
use types_base::Failed;

/// How often a client repeats calls at most.
const MOST_REPEATS: u32 = 10_000;

/// What a client says that is done.
const NOTHING: &[u8] = b"";

/// What a client says, call by call. A call is made once the reply to the one before it was put.
#[derive(Drop)]
pub(crate) struct StorySource<H> {
    rt: H,
    signals: SharedSignals,
    steps: &'static [Step],
    taken: usize,
    repeats: u32,
    rest: &'static [u8],
}

impl<H: Wait> StorySource<H> {
    /// A client that takes these steps.
    pub(crate) fn new(rt: H, signals: SharedSignals, steps: &'static [Step]) -> StorySource<H> {
        StorySource {
            rt,
            signals,
            steps,
            taken: 0,
            repeats: 0,
            rest: NOTHING,
        }
    }

    // Whether a call is made once more after this time.
    fn is_repeated(&mut self, until: Signal) -> bool {
        self.signals.rest(&self.rt, until, 0);
        self.repeats = self.repeats.saturating_add(1);
        self.signals.count(until) == 0 && self.repeats < MOST_REPEATS
    }

    // The next call. It is empty where the client is done.
    fn next_call(&mut self) -> &'static [u8] {
        let steps = self.steps;
        match steps.get(self.taken) {
            Some(Step::Call(asked)) => {
                self.taken = self.taken.saturating_add(1);
                asked.packet()
            }
            Some(Step::Repeat(asked, until)) => {
                if !self.is_repeated(*until) {
                    self.taken = self.taken.saturating_add(1);
                }
                asked.packet()
            }
            Some(Step::CallAfter(given, awaited, times, asked)) => {
                self.taken = self.taken.saturating_add(1);
                self.signals.give(*given);
                self.signals.wait_for(&self.rt, *awaited, *times);
                asked.packet()
            }
            None => NOTHING,
        }
    }
}

impl<H: Wait> Source for StorySource<H> {
    ghost use Rattle.std.specs.Prelude.{None};

    ghost left = { λ _. None };

    ghost faults = { λ _. 0 };

    fn take(&mut self, into: &mut [u8]) -> Result<usize, Failed> {
        if self.rest.is_empty() {
            self.rest = self.next_call();
        }
        let count = self.rest.len().min(into.len());
        let (front, rest) = self.rest.split_at(count);
        into.split_at_mut(count).0.copy_from_slice(front);
        self.rest = rest;
        Ok(count)
    }
}
