use crate::list::ObjectList;
use book_spec::{ListMark, Slots};
use std::collections::LinkedList;
use turn_book::Kept;

impl Kept for ObjectList {
    ghost use Rattle.object_list.specs.Keeping.{meaning, no_mark_lowers, new_base_keeps};

    type Base = Slots;

    type Mark = ListMark;

    /// For each slot, how often the number holds it.
    type Share = LinkedList<u64>;

    ghost meaning = { meaning };

    ghost no_mark_lowers = { no_mark_lowers };

    ghost new_base_keeps = { new_base_keeps };

    fn chapter(&self) -> u64 {
        self.chapter()
    }

    fn marks(&self) -> u64 {
        self.marks()
    }
}
