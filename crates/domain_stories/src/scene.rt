// What is the same for all threads of a story.
use guest_model::SimGuests;
use std::alloc::Global;
use std::sync::{Arc, Wait};
use story_guests::{Manner, SharedSignals, Signals, StoryGuests};
use virt_types::NoMemory;

/// What is the same for all threads of a story.
#[derive(Drop)]
pub(crate) struct Scene<H> {
    pub(crate) rt: H,
    pub(crate) alloc: Global,
    pub(crate) signals: SharedSignals,
    manner: Manner,
}

impl<H: Wait + Copy + Send + Sync> Scene<H> {
    /// A scene in which no signal was given yet, and whose guests are like that.
    pub(crate) fn new(rt: H, alloc: Global, manner: Manner) -> Result<Scene<H>, NoMemory> {
        let signals = Signals::shared(alloc)?;
        Ok(Scene {
            rt,
            alloc,
            signals,
            manner,
        })
    }

    /// What makes its guests.
    pub(crate) fn guests(&self) -> Result<StoryGuests<H, SimGuests<H>>, NoMemory> {
        let signals = Arc::try_clone(&self.signals)?;
        let guests = SimGuests::new(self.rt, self.alloc);
        Ok(StoryGuests::new(self.rt, guests, signals, self.manner))
    }
}
