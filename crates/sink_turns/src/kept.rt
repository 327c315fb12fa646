use crate::mark::{Mark, Start};
use crate::spoken::Out;
use packet::Sink;
use turn_cell::Kept;

impl<K: Sink + Drop> Kept for Out<K> {
    ghost use Rattle.sink_turns.specs.Keeping.{meaning, new_base_keeps, no_mark_lowers};

    type Base = Start;

    type Mark = Mark;

    type Share = ();

    ghost meaning = { meaning };

    ghost no_mark_lowers = { no_mark_lowers };

    ghost new_base_keeps = { new_base_keeps };

    fn chapter(&self) -> u64 {
        0
    }

    fn marks(&self) -> u64 {
        self.len() as u64
    }
}
