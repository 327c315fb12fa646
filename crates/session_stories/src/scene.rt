// What is the same for all sessions of a story.
use crate::client::StorySource;
use crate::gate::StoryGate;
use crate::stories::Part;
use crate::words::CountedWords;
use driver_sessions::Session;
use guest_model::SimGuests;
use packet::memory::MemorySink;
use std::alloc::Global;
use std::sync::{Arc, Wait};
use story_guests::{Manner, SharedSignals, Signals, StoryGuests};
use types_base::NoMemory;

/// A session of a story.
pub(crate) type StorySession<H> = Session<StorySource<H>, MemorySink, CountedWords, StoryGate<H>>;

/// What is the same for all sessions of a story.
#[derive(Drop)]
pub(crate) struct Scene<H> {
    rt: H,
    alloc: Global,
    signals: SharedSignals,
    manner: Manner,
}

impl<H: Wait + Copy + Send + Sync> Scene<H> {
    /// A scene in which no signal was given yet, and whose guests are like that.
    pub(crate) fn new(rt: H, alloc: Global, manner: Manner) -> Result<Scene<H>, NoMemory> {
        let signals = Signals::shared(alloc)?;
        Ok(Scene {
            rt,
            alloc,
            signals,
            manner,
        })
    }

    /// What makes its guests.
    pub(crate) fn guests(&self) -> Result<StoryGuests<H, SimGuests<H>>, NoMemory> {
        let signals = Arc::try_clone(&self.signals)?;
        let guests = SimGuests::new(self.rt, self.alloc);
        Ok(StoryGuests::new(self.rt, guests, signals, self.manner))
    }

    // The session of this number.
    fn session(&self, number: u64, part: &Part) -> Result<StorySession<H>, NoMemory> {
        let for_source = Arc::try_clone(&self.signals)?;
        let for_gate = Arc::try_clone(&self.signals)?;
        Ok(Session {
            alloc: self.alloc,
            number,
            source: StorySource::new(self.rt, for_source, part.steps),
            sink: MemorySink::new(self.alloc),
            random: CountedWords { last: 0 },
            gate: StoryGate {
                rt: self.rt,
                signals: for_gate,
                before: part.before,
                after: part.after,
            },
        })
    }

    /// A session for each part.
    pub(crate) fn sessions(&self, parts: &[Part]) -> Result<Vec<StorySession<H>>, NoMemory> {
        let mut sessions = Vec::new(self.alloc);
        let mut number: u64 = 0;
        for part in parts {
            number = number.saturating_add(1);
            sessions.push(self.session(number, part)?)?;
        }
        Ok(sessions)
    }
}
