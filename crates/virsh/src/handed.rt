// What the outside gave, or got.
ghost use Rattle.std.specs.Borrow.{ftrue};
ghost use Rattle.std.specs.Prelude.{◌≡◌, ℕ, List, Option, None, Some};
ghost use Rattle.virsh.specs.Handed.{none_handed, one_more};

use std::marker::{Model, PhantomData};
use std::snapshot::Snapshot;

/// How many values of a kind were handed over, and the last of them, which contracts alone see.
#[derive(Drop)]
pub(crate) struct HandedOver<T> {
    count: u64,
    last: Option<Snapshot<T>>,
}

impl<T> Model for HandedOver<T> {
    ghost use Rattle.std.specs.Prelude.{option_map};
    ghost use Rattle.virsh.specs.Handed.{Handed};

    ghost Value = { Handed T };

    ghost view = { λ h. record { count = h.count; last = option_map (λ s. s.value) h.last } };
}

impl<T> HandedOver<T> {
    /// None so far.
    pub(crate) fn none() -> HandedOver<T>
        ensures { result ≡ none_handed }
    {
        HandedOver {
            count: 0,
            last: None,
        }
    }

    /// This one more.
    pub(crate) fn add(&mut self, value: &T)
        ensures { self.new ≡ one_more self.old value.now }
    {
        self.count = self.count.saturating_add(1);
        self.last = Some(Snapshot::of(value));
    }

    /// How many they are.
    pub(crate) fn count(&self) -> u64
        ensures { result ≡ self.now.count }
    {
        self.count
    }
}

// A line as clauses see it, or none. It has no bytes, and owns nothing; whoever makes one says which line it is.
#[derive(Drop)]
struct LastLine {
    of: PhantomData<u64>,
    ghost line: { Option (List ℕ) },
}

impl Model for LastLine {
    ghost also_owns = { λ _. ftrue };
}

impl LastLine {
    // The line that the caller names.
    fn named() -> LastLine
        ghost line: { Option (List ℕ) }
        ensures { result.line ≡ line }
    {
        LastLine { of: PhantomData }
    }

    fn none() -> LastLine
        ensures { result.line ≡ None }
    {
        LastLine::named()
    }

    fn of(line: &[u8]) -> LastLine
        ensures { result.line ≡ Some line.now }
    {
        named_of(line)
    }
}

// The line is named in two steps, since a pick sees the callee's arguments alone.
fn named_of(_line: &[u8]) -> LastLine
    ghost line: { Option (List ℕ) }
    ensures { result.line ≡ line }
{
    LastLine::named()
}

/// How many lines were said, and the last of them, which contracts alone see.
#[derive(Drop)]
pub(crate) struct SaidLines {
    count: u64,
    last: LastLine,
}

impl Model for SaidLines {
    ghost use Rattle.std.specs.Prelude.{ℕ, List};
    ghost use Rattle.virsh.specs.Handed.{Handed};

    ghost Value = { Handed (List ℕ) };

    ghost view = { λ s. record { count = s.count; last = s.last.line } };
}

impl SaidLines {
    /// None so far.
    pub(crate) fn none() -> SaidLines
        ensures { result ≡ none_handed }
    {
        SaidLines {
            count: 0,
            last: LastLine::none(),
        }
    }

    /// This one more.
    pub(crate) fn add(&mut self, line: &[u8])
        ensures { self.new ≡ one_more self.old line.now }
    {
        self.count = self.count.saturating_add(1);
        self.last = LastLine::of(line);
    }
}
