// The counts that say why a link answers as it does.
ghost use Rattle.std.specs.Prelude.{◌≡◌, ◌≤◌};
ghost use Rattle.monitor_link.specs.Causes.{IsAnswerCaused, IsHeardCaused, IsOfGuest};
ghost use Rattle.monitor_link.specs.Counting.{after_answer, after_heard};

use crate::link::Heard;
use virt_types::Answer;

/// How often a link said that its guest has ended, and how often it was lost. A count stays at the
/// greatest value of its type.
#[derive(Clone, Copy, Debug, PartialEq, Eq)]
pub struct Counts {
    /// How often the guest had ended.
    pub ends: u64,
    /// How often the link was lost.
    pub faults: u64,
}

impl Counts {
    /// Nothing was counted yet.
    pub const NONE: Counts = Counts { ends: 0, faults: 0 };

    /// Counts an answer, which is none of the store's.
    #[inline]
    pub fn count_answer(&mut self, answer: &Answer)
        requires { IsOfGuest answer.now }
        ensures counts { self.new ≡ after_answer self.old answer.now }
        ensures cause { IsAnswerCaused answer.now self.new.ends self.old.faults self.new.faults }
        ensures ends { self.old.ends ≤ self.new.ends }
        ensures faults { self.old.faults ≤ self.new.faults }
    {
        match answer {
            Answer::Ended(_) => self.ends = self.ends.saturating_add(1),
            Answer::Lost => self.faults = self.faults.saturating_add(1),
            _ => {}
        }
    }

    /// Counts what was heard.
    #[inline]
    pub fn count_heard(&mut self, heard: Heard)
        ensures counts { self.new ≡ after_heard self.old heard }
        ensures cause { IsHeardCaused heard self.new.ends self.old.faults self.new.faults }
        ensures ends { self.old.ends ≤ self.new.ends }
        ensures faults { self.old.faults ≤ self.new.faults }
    {
        match heard {
            Heard::Ended(_) => self.ends = self.ends.saturating_add(1),
            Heard::Lost => self.faults = self.faults.saturating_add(1),
            _ => {}
        }
    }
}
