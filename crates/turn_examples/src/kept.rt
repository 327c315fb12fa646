use crate::counter::{Amount, Counter};
use turn_cell::Kept;

impl Kept for Counter {
    ghost use Rattle.turn_examples.specs.Keeping.{meaning, no_mark_lowers, new_base_keeps};

    type Base = ();

    type Mark = Amount;

    type Share = ();

    ghost meaning = { meaning };

    ghost no_mark_lowers = { no_mark_lowers };

    ghost new_base_keeps = { new_base_keeps };

    fn chapter(&self) -> u64 {
        0
    }

    fn marks(&self) -> u64 {
        self.len() as u64
    }
}
