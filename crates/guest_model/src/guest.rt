// A modelled guest.
ghost use Rattle.std.specs.Prelude.{◌≡◌, ◌≤◌, IfOk};
ghost use Rattle.guest_model.specs.Hearing.{hearing, killed};
ghost use Rattle.guest_model.specs.Reacting.{Reacts, made};
ghost use Rattle.monitor_link.specs.Causes.{IsAnswerCaused, IsHeardCaused, IsOfGuest};

use crate::asks::react;
use crate::happening::Happening;
use crate::queue::Queue;
use monitor_link::{Counts, Heard};
use std::alloc::Global;
use virt_types::{Answer, Command, DomainDef, EndReason, NoMemory, ScriptEntryList, TryCopy};

/// A guest in memory that answers as its script says. It waits for nobody.
#[derive(Drop)]
pub struct SimGuest {
    /// What it does at which command.
    pub(crate) script: ScriptEntryList,
    /// The number of its boot.
    pub(crate) boot: u64,
    /// How many commands it has had; the count stays at 2^62.
    pub(crate) commands: u64,
    /// How much memory it has, in KiB.
    pub(crate) memory: u64,
    /// How much of a copy of its state is left.
    pub(crate) rest: u64,
    /// What it did that is still to be heard.
    pub(crate) queue: Queue,
    /// Why it ended.
    pub(crate) ended: Option<EndReason>,
    /// What it said of its ends and of its link.
    pub(crate) counts: Counts,
}

impl SimGuest {
    /// The guest of this definition, for the boot of this number.
    pub fn new(alloc: Global, def: &DomainDef, boot: u64) -> Result<SimGuest, NoMemory>
        ensures { IfOk result (λ guest. guest ≡ made def.now boot) }
    {
        Ok(SimGuest {
            script: def.guest.entries.copy()?,
            boot,
            commands: 0,
            memory: def.current_memory,
            rest: 0,
            queue: Queue::new(alloc),
            ended: None,
            counts: Counts::NONE,
        })
    }

    /// Its answer to a command, which it counts where it says that it has ended, or that the link was lost. Where there is
    /// no memory for the answer nothing changes.
    #[inline]
    pub fn ask(&mut self, command: &Command) -> Answer
        ensures machine { Reacts self.old command.now result self.new }
        ensures own { IsOfGuest result }
        ensures cause { IsAnswerCaused result self.new.counts.ends self.old.counts.faults self.new.counts.faults }
        ensures ends { self.old.counts.ends ≤ self.new.counts.ends }
        ensures faults { self.old.counts.faults ≤ self.new.counts.faults }
    {
        match react(self, command) {
            Ok(answer) => {
                self.counts.count_answer(&answer);
                answer
            }
            Err(NoMemory) => Answer::NoMemory,
        }
    }

    /// What is heard of it next.
    pub fn hear(&mut self) -> Heard
        ensures heard { result ≡ (hearing self.old).heard }
        ensures guest { self.new ≡ (hearing self.old).guest }
        ensures cause { IsHeardCaused result self.new.counts.ends self.old.counts.faults self.new.counts.faults }
        ensures ends { self.old.counts.ends ≤ self.new.counts.ends }
        ensures faults { self.old.counts.faults ≤ self.new.counts.faults }
    {
        let heard = match self.queue.pop() {
            Some(Happening::Event(event)) => Heard::Event(event),
            Some(Happening::End(reason)) => {
                let first = self.ended.unwrap_or(reason);
                self.ended = Some(first);
                Heard::Ended(first)
            }
            None => match self.ended {
                Some(reason) => Heard::Ended(reason),
                None => Heard::Quiet,
            },
        };
        self.counts.count_heard(heard);
        heard
    }

    /// Ends it. A guest that has ended keeps its first reason.
    pub fn kill(&mut self)
        ensures { self.new ≡ killed self.old }
    {
        self.ended = Some(self.ended.unwrap_or(EndReason::Killed));
    }
}
