ghost use Rattle.std.specs.Prelude.{◌≡◌, ◌+◌, min};

use std::marker::Model;
use virt_types::Who;

/// A caller that waits.
#[derive(Drop)]
pub struct Waiter {
    /// The caller.
    pub who: Who,
    /// How many of its looks found it excluded; the count stays at 1,000.
    pub looks: u32,
}

impl Model for Waiter {
    ghost use Rattle.domain_spec.specs.Cell.{Waiter as Waiting};

    ghost Value = { Waiting };

    ghost view = { λ w. record { who = w.who; looks = w.looks } };
}

// Where the count of looks stays.
const MOST_LOOKS: u32 = 1000;

impl Waiter {
    /// One more look found it excluded.
    pub(crate) fn count(&mut self)
        ensures { self.new ≡ record { who = self.old.who; looks = min (self.old.looks + 1) 1000 } }
    {
        self.looks = self.looks.saturating_add(1).min(MOST_LOOKS);
    }
}
