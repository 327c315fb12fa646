ghost use Rattle.std.specs.Prelude.{◌≡◌, length};
ghost use Rattle.turn_cell.specs.Meaning.{Meaning, NoMarkLowers, NewBaseKeeps};

/// A value that callers change in turns, and that keeps a history of what they did.
pub trait Kept {
    /// What a chapter begins with.
    type Base;
    /// One change.
    type Mark;
    /// What the value keeps for the number of one pass alone.
    type Share;

    // What contracts see in the value.
    ghost meaning: { Meaning Self Self.Base Self.Mark Self.Share };

    /// The number of the chapter.
    fn chapter(&self) -> u64
        ensures { result ≡ (meaning.history self.now).chapter };

    /// How many marks the chapter has.
    fn marks(&self) -> u64
        ensures { result ≡ length (meaning.history self.now).marks };

    ghost no_mark_lowers: { NoMarkLowers meaning };

    ghost new_base_keeps: { NewBaseKeeps meaning };
}
