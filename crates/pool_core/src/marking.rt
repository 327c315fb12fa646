// The marks of calls. Who calls these functions says what the mark is; a pick sees the callee's
// arguments alone, so they take what was asked for.
ghost use Rattle.std.specs.Prelude.{◌≡◌, ◌<◌, ◌^◌, length};
ghost use Rattle.book_spec.specs.declared.pool_book.PoolMark.{PoolMark};
ghost use Rattle.book_spec.specs.PoolHistory.{with_mark};
ghost use Rattle.pool_core.specs.Marks.{Leaves, LeavesRefusal};

use crate::Tested;
use crate::chronicle::Chronicle;
use std::snapshot::Snapshot;
use virt_types::{Name, OrNoMemory, PoolDef, Refusal, Uuid, VolDef};

// The mark of a call, but where there was no memory.
fn leave(chronicle: &mut Chronicle, tested: &Tested)
    ghost mark: { PoolMark }
    requires { chronicle.old.chapter < 2 ^ 62 }
    ensures { Leaves mark tested.now chronicle.old chronicle.new }
{
    match tested {
        Err(OrNoMemory::NoMemory) => {}
        _ => {
            chronicle.open();
            chronicle.tell();
        }
    }
}

// The mark of a test that refuses; where it does not, room for a mark.
fn leave_refusal(chronicle: &mut Chronicle, tested: &Tested)
    ghost mark: { PoolMark }
    requires { chronicle.old.chapter < 2 ^ 62 }
    ensures { LeavesRefusal mark tested.now chronicle.old chronicle.new }
{
    match tested {
        Err(OrNoMemory::NoMemory) => {}
        Ok(()) => chronicle.open(),
        Err(OrNoMemory::Fault(_)) => {
            chronicle.open();
            chronicle.tell();
        }
    }
}

pub(crate) fn mark_uuid(chronicle: &mut Chronicle, _uuid: Uuid, tested: &Tested)
    ghost mark: { PoolMark }
    requires { chronicle.old.chapter < 2 ^ 62 }
    ensures { Leaves mark tested.now chronicle.old chronicle.new }
{
    leave(chronicle, tested);
}

pub(crate) fn mark_made(
    chronicle: &mut Chronicle,
    _pool: Uuid,
    _def: &Snapshot<VolDef>,
    tested: &Tested,
)
    ghost mark: { PoolMark }
    requires { chronicle.old.chapter < 2 ^ 62 }
    ensures { Leaves mark tested.now chronicle.old chronicle.new }
{
    leave(chronicle, tested);
}

pub(crate) fn mark_deleted(chronicle: &mut Chronicle, _pool: Uuid, _name: &Name, tested: &Tested)
    ghost mark: { PoolMark }
    requires { chronicle.old.chapter < 2 ^ 62 }
    ensures { Leaves mark tested.now chronicle.old chronicle.new }
{
    leave(chronicle, tested);
}

pub(crate) fn mark_def(chronicle: &mut Chronicle, _def: &PoolDef, tested: &Tested)
    ghost mark: { PoolMark }
    requires { chronicle.old.chapter < 2 ^ 62 }
    ensures { LeavesRefusal mark tested.now chronicle.old chronicle.new }
{
    leave_refusal(chronicle, tested);
}

pub(crate) fn mark_refusal(chronicle: &mut Chronicle, _uuid: Uuid, tested: &Tested)
    ghost mark: { PoolMark }
    requires { chronicle.old.chapter < 2 ^ 62 }
    ensures { LeavesRefusal mark tested.now chronicle.old chronicle.new }
{
    leave_refusal(chronicle, tested);
}

pub(crate) fn mark_autostart(chronicle: &mut Chronicle, _uuid: Uuid, _on: bool, tested: &Tested)
    ghost mark: { PoolMark }
    requires { chronicle.old.chapter < 2 ^ 62 }
    ensures { LeavesRefusal mark tested.now chronicle.old chronicle.new }
{
    leave_refusal(chronicle, tested);
}

pub(crate) fn mark_def_done(chronicle: &mut Chronicle, _def: &PoolDef)
    ghost mark: { PoolMark }
    requires { length chronicle.old.marks < 2 ^ 63 }
    ensures { chronicle.new ≡ with_mark mark chronicle.old }
{
    chronicle.tell();
}

pub(crate) fn mark_done(chronicle: &mut Chronicle, _uuid: Uuid)
    ghost mark: { PoolMark }
    requires { length chronicle.old.marks < 2 ^ 63 }
    ensures { chronicle.new ≡ with_mark mark chronicle.old }
{
    chronicle.tell();
}

pub(crate) fn mark_autostart_done(chronicle: &mut Chronicle, _uuid: Uuid, _on: bool)
    ghost mark: { PoolMark }
    requires { length chronicle.old.marks < 2 ^ 63 }
    ensures { chronicle.new ≡ with_mark mark chronicle.old }
{
    chronicle.tell();
}

pub(crate) fn mark_refused(chronicle: &mut Chronicle, _refusal: &Refusal)
    ghost mark: { PoolMark }
    requires { length chronicle.old.marks < 2 ^ 63 }
    ensures { chronicle.new ≡ with_mark mark chronicle.old }
{
    chronicle.tell();
}
