// Words that are drawn for sessions.
use types_base::Random;

/// Words that count up.
#[derive(Clone, Copy)]
pub(crate) struct CountedWords {
    /// The last one.
    pub(crate) last: u64,
}

impl Random for CountedWords {
    ghost use Rattle.std.specs.Prelude.{None};

    ghost drawn = { λ _. None };

    fn word(&mut self) -> u64 {
        self.last = self.last.wrapping_add(1);
        self.last
    }

    fn another(&mut self) -> CountedWords {
        *self
    }
}
