// The two smallest parts of the outside: words without a pattern, and a place to stop at.
ghost use Rattle.std.specs.Prelude.{ℕ, List, ◌∷◌, []};
ghost use Rattle.std.specs.declared.option.Option.{Option};
ghost use Rattle.std.specs.Io.KnownBytes.{Appends, Keeps};
ghost use Rattle.types_base.specs.Drawn.{HasDrawnNone};

/// A source of words without a pattern, for new identifiers and addresses.
pub trait Random {
    // The words drawn so far, in order, where the source reports them.
    ghost drawn: { Self → Option (List ℕ) };

    /// The next word.
    fn word(&mut self) -> u64
        ensures { Appends (drawn self.old) (drawn self.new) (result ∷ []) };

    /// A source of its own, for another activity. It reports its words where this one does.
    fn another(&mut self) -> Self
    where
        Self: Sized,
        ensures fresh { HasDrawnNone (drawn self.old) (drawn result) }
        ensures this { Keeps (drawn self.old) (drawn self.new) };
}

/// Where a session may be held up, as a test does it. The shipped gate does nothing.
pub trait Gate {
    /// The activity has come to this point: 1 before a call is run, 2 after its message was put.
    fn at(&self, point: u32);
}
