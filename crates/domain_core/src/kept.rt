// A domain's cell as a value that callers change in turns.
ghost use Rattle.domain_core.specs.Celled.{CellShare};

use crate::cell::DomainCell;
use domain_spec::{Base, Mark};
use monitor_link::Guests;
use std::marker::{Model, PhantomData};
use turn_cell::Kept;

/// What a cell keeps for the number of one pass alone: who waits by it, its open call with the monitor that is out, its
/// operation, its registrations, and the ears that it has out. Contracts alone see it, and no value of it is made.
#[derive(Drop)]
pub struct Share {
    of: PhantomData<u64>,
    ghost kept: { CellShare },
}

impl Model for Share {
    ghost use Rattle.domain_core.specs.Celled.{CellShare};
    ghost use Rattle.std.specs.Borrow.{ftrue};

    ghost Value = { CellShare };

    ghost view = { λ s. s.kept };

    ghost also_owns = { λ _. ftrue };
}

impl<G: Guests> Kept for DomainCell<G> {
    ghost use Rattle.domain_core.specs.Meaning.{meaning};
    ghost use Rattle.domain_core.specs.Keeping.{new_base_keeps, no_mark_lowers};

    type Base = Base;

    type Mark = Mark<u64>;

    type Share = Share;

    ghost meaning = { meaning };

    ghost no_mark_lowers = { no_mark_lowers };

    ghost new_base_keeps = { new_base_keeps };

    fn chapter(&self) -> u64 {
        self.chapter()
    }

    fn marks(&self) -> u64 {
        self.len() as u64
    }
}
