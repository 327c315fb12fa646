// The history of a chapter by itself.
use crate::base::ChapterBase;
use domain_spec::Mark;
use history_spec::Stamp;
use std::marker::Model;
use virt_types::ListOf;

/// What happened to a domain in a chapter, once nothing more does. Contracts see its marks with the numbers of
/// their stamps.
#[derive(Drop)]
pub struct Chronicle {
    /// The number of the chapter.
    pub chapter: u64,
    /// What it began with.
    pub base: ChapterBase,
    /// Its marks, the oldest first.
    pub marks: ListOf<Mark<Stamp>>,
}

impl Model for Chronicle {
    ghost use Rattle.std.specs.Prelude.{ℕ};
    ghost use Rattle.history_spec.specs.declared.history.History.{History};
    ghost use Rattle.domain_spec.specs.declared.mark.Mark.{Mark};
    ghost use Rattle.domain_spec.specs.declared.standing.Base.{Base};
    ghost use Rattle.core_chapter.specs.Numbered.{all_numbered};

    ghost Value = { History Base (Mark ℕ) };

    ghost view = { λ c. record { chapter = c.chapter; base = c.base; marks = all_numbered c.marks } };
}
