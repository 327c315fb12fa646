// The marks of calls. Who calls these functions says what the mark is; a pick sees the callee's
// arguments alone, so they take what was asked for.
ghost use Rattle.std.specs.Prelude.{◌≡◌, ◌<◌, ◌^◌, length};
ghost use Rattle.book_spec.specs.declared.book.NetMark.{NetMark};
ghost use Rattle.book_spec.specs.NetHistory.{with_mark};
ghost use Rattle.net_core.specs.Answers.{Leaves, LeavesRefusal};

use crate::chronicle::Chronicle;
use crate::refusals::Tested;
use book_spec::LeaseFault;
use virt_types::{Mac, NetDef, OrNoMemory, Refusal, Text, Uuid};

// The mark of a call, but where there was no memory.
fn leave(chronicle: &mut Chronicle, tested: &Tested)
    ghost mark: { NetMark }
    requires { chronicle.old.chapter < 2 ^ 62 }
    ensures { Leaves mark tested.now chronicle.old chronicle.new }
{
    match tested {
        Err(OrNoMemory::NoMemory) => {}
        _ => {
            chronicle.open();
            chronicle.tell();
        }
    }
}

// The mark of a test that refuses; where it does not, room for a mark.
fn leave_refusal(chronicle: &mut Chronicle, tested: &Tested)
    ghost mark: { NetMark }
    requires { chronicle.old.chapter < 2 ^ 62 }
    ensures { LeavesRefusal mark tested.now chronicle.old chronicle.new }
{
    match tested {
        Err(OrNoMemory::NoMemory) => {}
        Ok(()) => chronicle.open(),
        Err(OrNoMemory::Fault(_)) => {
            chronicle.open();
            chronicle.tell();
        }
    }
}

pub(crate) fn mark_uuid(chronicle: &mut Chronicle, _uuid: Uuid, tested: &Tested)
    ghost mark: { NetMark }
    requires { chronicle.old.chapter < 2 ^ 62 }
    ensures { Leaves mark tested.now chronicle.old chronicle.new }
{
    leave(chronicle, tested);
}

pub(crate) fn mark_lease(
    chronicle: &mut Chronicle,
    _name: &Text,
    _mac: Mac,
    leased: &Result<u32, OrNoMemory<LeaseFault>>,
)
    ghost mark: { NetMark }
    requires { chronicle.old.chapter < 2 ^ 62 }
    ensures { Leaves mark leased.now chronicle.old chronicle.new }
{
    match leased {
        Err(OrNoMemory::NoMemory) => {}
        _ => {
            chronicle.open();
            chronicle.tell();
        }
    }
}

pub(crate) fn mark_def(chronicle: &mut Chronicle, _def: &NetDef, tested: &Tested)
    ghost mark: { NetMark }
    requires { chronicle.old.chapter < 2 ^ 62 }
    ensures { LeavesRefusal mark tested.now chronicle.old chronicle.new }
{
    leave_refusal(chronicle, tested);
}

pub(crate) fn mark_refusal(chronicle: &mut Chronicle, _uuid: Uuid, tested: &Tested)
    ghost mark: { NetMark }
    requires { chronicle.old.chapter < 2 ^ 62 }
    ensures { LeavesRefusal mark tested.now chronicle.old chronicle.new }
{
    leave_refusal(chronicle, tested);
}

pub(crate) fn mark_autostart(chronicle: &mut Chronicle, _uuid: Uuid, _on: bool, tested: &Tested)
    ghost mark: { NetMark }
    requires { chronicle.old.chapter < 2 ^ 62 }
    ensures { LeavesRefusal mark tested.now chronicle.old chronicle.new }
{
    leave_refusal(chronicle, tested);
}

pub(crate) fn mark_def_done(chronicle: &mut Chronicle, _def: &NetDef)
    ghost mark: { NetMark }
    requires { length chronicle.old.marks < 2 ^ 63 }
    ensures { chronicle.new ≡ with_mark mark chronicle.old }
{
    chronicle.tell();
}

pub(crate) fn mark_done(chronicle: &mut Chronicle, _uuid: Uuid)
    ghost mark: { NetMark }
    requires { length chronicle.old.marks < 2 ^ 63 }
    ensures { chronicle.new ≡ with_mark mark chronicle.old }
{
    chronicle.tell();
}

pub(crate) fn mark_autostart_done(chronicle: &mut Chronicle, _uuid: Uuid, _on: bool)
    ghost mark: { NetMark }
    requires { length chronicle.old.marks < 2 ^ 63 }
    ensures { chronicle.new ≡ with_mark mark chronicle.old }
{
    chronicle.tell();
}

pub(crate) fn mark_refused(chronicle: &mut Chronicle, _refusal: &Refusal)
    ghost mark: { NetMark }
    requires { length chronicle.old.marks < 2 ^ 63 }
    ensures { chronicle.new ≡ with_mark mark chronicle.old }
{
    chronicle.tell();
}
