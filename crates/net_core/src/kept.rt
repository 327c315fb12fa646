use crate::book::NetBook;
use book_spec::{NetMark, Networks};
use turn_cell::Kept;

impl Kept for NetBook {
    ghost use Rattle.net_core.specs.Keeping.{meaning, no_mark_lowers, new_base_keeps};

    type Base = Networks;

    type Mark = NetMark;

    /// A pass keeps nothing in the book.
    type Share = ();

    ghost meaning = { meaning };

    ghost no_mark_lowers = { no_mark_lowers };

    ghost new_base_keeps = { new_base_keeps };

    fn chapter(&self) -> u64 {
        self.chapter()
    }

    fn marks(&self) -> u64 {
        self.marks()
    }
}
