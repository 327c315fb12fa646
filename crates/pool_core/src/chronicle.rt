// The history of the book: at run time the numbers of its chapter and of its marks.
ghost use Rattle.std.specs.Prelude.{◌≡◌, ◌<◌, ◌^◌, [], length};
ghost use Rattle.book_spec.specs.Pools.{Pools};
ghost use Rattle.book_spec.specs.declared.pool_book.PoolMark.{PoolMark};
ghost use Rattle.book_spec.specs.PoolHistory.{PoolHistory, open_chapter, with_mark};

use crate::story::Story;
use std::marker::Model;

/// How many marks a chapter holds before the next one may begin.
const MOST_MARKS: u64 = 4096;

/// What happened to the book. Marks take no bytes: nothing but contracts reads them.
#[derive(Drop)]
pub struct Chronicle {
    chapter: u64,
    marks: u64,
    story: Story,
}

impl Model for Chronicle {
    ghost use Rattle.book_spec.specs.PoolHistory.{PoolHistory};
    ghost use Rattle.pool_core.specs.Keeping.{IsCounted};

    ghost Value = { PoolHistory };

    ghost view = { λ c. c.story.told };

    ghost invariant = { λ c. IsCounted c.chapter c.marks c.story.told };
}

impl Chronicle {
    /// Chapter 0, which begins with these pools and has no mark yet.
    pub(crate) fn begin() -> Chronicle
        ghost base: { Pools }
        ensures { result ≡ record { chapter = 0; base = base; marks = [] } }
    {
        Chronicle {
            chapter: 0,
            marks: 0,
            story: Story::named(),
        }
    }

    /// The number of the chapter.
    pub(crate) fn chapter(&self) -> u64
        ensures { result ≡ self.now.chapter }
    {
        self.chapter
    }

    /// How many marks the chapter has.
    pub(crate) fn marks(&self) -> u64
        ensures { result ≡ length self.now.marks }
    {
        self.marks
    }

    /// Begins the next chapter where this one is long.
    pub(crate) fn open(&mut self)
        requires { self.old.chapter < 2 ^ 62 }
        ensures { self.new ≡ open_chapter self.old }
    {
        if self.marks >= MOST_MARKS {
            self.story = next_chapter(&self.story);
            self.chapter += 1;
            self.marks = 0;
        }
    }

    /// A mark more.
    pub(crate) fn tell(&mut self)
        ghost mark: { PoolMark }
        requires { length self.old.marks < 2 ^ 63 }
        ensures { self.new ≡ with_mark mark self.old }
    {
        self.story = told_more(&self.story);
        self.marks += 1;
    }
}

// The story is named in two steps, since a pick sees the callee's arguments alone.
fn next_chapter(_old: &Story) -> Story
    ghost told: { PoolHistory }
    ensures { result.told ≡ told }
{
    Story::named()
}

fn told_more(_old: &Story) -> Story
    ghost told: { PoolHistory }
    ensures { result.told ≡ told }
{
    Story::named()
}
