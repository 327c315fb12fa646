// What a cell of a domain holds.
ghost use Rattle.std.specs.Prelude.{◌↔◌, IsTrue};
ghost use Rattle.types_eq.specs.Groups.{AreBegunAlike, HaveComeAlike};

use crate::parts::Same;
use virt_types::{Live, Op, Refusal, Snap, SnapInfo};

impl Same for Refusal {
    fn same(&self, other: &Refusal) -> bool {
        self.code == other.code && self.kept.same(&other.kept)
    }
}

impl Same for Live {
    fn same(&self, other: &Live) -> bool {
        self.boot == other.boot
            && self.run.same(&other.run)
            && self.def.same(&other.def)
            && self.slots.same(&other.slots)
    }
}

impl Same for SnapInfo {
    fn same(&self, other: &SnapInfo) -> bool {
        self.name.same(&other.name) && self.description.same(&other.description)
    }
}

impl Same for Snap {
    fn same(&self, other: &Snap) -> bool {
        self.name.same(&other.name)
            && self.description.same(&other.description)
            && self.parent.same(&other.parent)
            && self.run.same(&other.run)
            && self.def.same(&other.def)
            && self.saved.same(&other.saved)
    }
}

fn are_begun_alike(one: &Op, other: &Op) -> bool
    ensures { IsTrue result ↔ AreBegunAlike one.now other.now }
{
    one.kind == other.kind
        && one.who.same(&other.who)
        && one.boot.same(&other.boot)
        && one.new_boot == other.new_boot
        && one.was_running == other.was_running
}

fn have_come_alike(one: &Op, other: &Op) -> bool
    ensures { IsTrue result ↔ HaveComeAlike one.now other.now }
{
    one.phase == other.phase
        && one.abort == other.abort
        && one.still == other.still
        && one.remaining.same(&other.remaining)
        && one.refusal.same(&other.refusal)
        && one.limit == other.limit
        && one.rests == other.rests
}

impl Same for Op {
    fn same(&self, other: &Op) -> bool {
        are_begun_alike(self, other) && have_come_alike(self, other)
    }
}
