use crate::keeper::Keeper;
use crate::mark::{StoreBase, StoreMark};
use crate::opening::Opening;
use files_disk::Files;
use turn_cell::Kept;

impl<F: Files, K: Opening> Kept for Keeper<F, K> {
    ghost use Rattle.def_keeper.specs.Turns.{meaning, no_mark_lowers, new_base_keeps};

    type Base = StoreBase;

    type Mark = StoreMark;

    type Share = ();

    ghost meaning = { meaning F.told };

    ghost no_mark_lowers = { no_mark_lowers F.told };

    ghost new_base_keeps = { new_base_keeps F.told };

    fn chapter(&self) -> u64 {
        self.chapter()
    }

    fn marks(&self) -> u64 {
        self.marks()
    }
}
