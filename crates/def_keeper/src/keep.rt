// Changes are made, and what is in doubt is settled.
ghost use Rattle.std.specs.Prelude.{◌≡◌, ℕ, List, ◌≤◌, ◌<◌, ◌+◌, ◌^◌, ◌∷◌, [], length, IfOk, OnOk, OnErr, IsErrOf, Err, None, Some};
ghost use Rattle.outside_spec.specs.Faults.{Rose};
ghost use Rattle.virt_types.specs.Below.types_base.declared.memory.Fault.TheVariants as fault;
ghost use Rattle.store_spec.specs.declared.kind.BookKind.{BookKind as TheKind};
ghost use Rattle.store_spec.specs.declared.change.Change.TheVariants as change;
ghost use Rattle.store_spec.specs.Changes.{changed, kind_of, uuid_of};
ghost use Rattle.store_spec.specs.Steps.{IsChange};
ghost use Rattle.def_keeper.specs.declared.mark.StoreAction.TheVariants as action;
ghost use Rattle.def_keeper.specs.declared.mark.StoreFault.TheVariants as store;
ghost use Rattle.def_keeper.specs.declared.mark.StoreMark.{StoreMark};
ghost use Rattle.def_keeper.specs.Calls.{AllGood, HasDevice, HasLeft, HasMade, HasSettled, IsDoubtAfter, IsFreeFor, IsQuiet, IsSettling, IsTakenBy, Refuses, as_answer, doubt_after};
ghost use Rattle.def_keeper.specs.Chapters.{by, moment_of, with_marks};
ghost use Rattle.def_map.specs.Map.{IsFree, found};
ghost use Rattle.def_keeper.specs.Safe.{IsKeptAt};

use crate::chronicle::{Chronicle, MOST};
use crate::mark::{DefKey, StoreFault};
use crate::trying::{drop_of, put, try_change};
use def_map::DefMap;
use files_disk::Files;
use std::alloc::Global;
use store_reading::known_uuid;
use store_spec::{BookKind, Change, Entry};
use virt_types::{Fault, NoMemory, OrNoMemory, TryCopy, Uuid};

// Marks of a change. Who calls it says which, of what is given here: a pick sees the callee's
// arguments alone.
fn mark_change<F: Files>(chronicle: &mut Chronicle, count: u64, _files: &F, _change: &Change)
    ghost more: { List StoreMark }
    requires count { length more ≡ count }
    requires few { length chronicle.old.marks + count < 2 ^ 64 }
    ensures { chronicle.new ≡ with_marks more chronicle.old }
{
    chronicle.tell(count);
}

fn mark_put<F: Files>(
    chronicle: &mut Chronicle,
    count: u64,
    _files: &F,
    _kind: BookKind,
    _uuid: Uuid,
    _entry: &Entry,
)
    ghost more: { List StoreMark }
    requires count { length more ≡ count }
    requires few { length chronicle.old.marks + count < 2 ^ 64 }
    ensures { chronicle.new ≡ with_marks more chronicle.old }
{
    chronicle.tell(count);
}

fn mark_drop<F: Files>(
    chronicle: &mut Chronicle,
    count: u64,
    _files: &F,
    _kind: BookKind,
    _uuid: Uuid,
)
    ghost more: { List StoreMark }
    requires count { length more ≡ count }
    requires few { length chronicle.old.marks + count < 2 ^ 64 }
    ensures { chronicle.new ≡ with_marks more chronicle.old }
{
    chronicle.tell(count);
}

// The change that writes an entry again, or drops it where there is none.
fn settling(map: &DefMap, key: DefKey) -> Result<Change, NoMemory>
    ensures { IfOk result (IsSettling key (found map.now)) }
{
    match map.get(key.kind, key.uuid) {
        Some(entry) => Ok(Change::Put {
            kind: key.kind,
            uuid: key.uuid,
            entry: entry.copy()?,
        }),
        None => Ok(Change::Drop {
            kind: key.kind,
            uuid: key.uuid,
        }),
    }
}

/// Settles what is in doubt.
pub(crate) fn settle<F: Files>(
    alloc: Global,
    files: &mut F,
    map: &DefMap,
    chronicle: &mut Chronicle,
    doubt: &mut Option<DefKey>,
) -> Result<(), Fault>
    ghost number: { ℕ }
    requires few { length chronicle.old.marks < 2 ^ 63 }
    requires good { AllGood (found map.now) }
    ensures kept { IsKeptAt (F.told files.old) chronicle.old (found map.now) doubt.old → IsKeptAt (F.told files.new) chronicle.new (found map.now) doubt.new }
    ensures settled { OnOk result (doubt.new ≡ None) }
    ensures doubt { OnErr result (doubt.new ≡ doubt.old) }
    ensures marks { HasSettled number doubt.old (found map.now) chronicle.old chronicle.new result }
    ensures cause { IsErrOf result fault.Failed → Rose (F.faults files.old) (F.faults files.new) }
    ensures faults { F.faults files.old ≤ F.faults files.new }
{
    let key = match *doubt {
        None => return Ok(()),
        Some(key) => key,
    };
    let change = match settling(map, key) {
        Ok(change) => change,
        Err(NoMemory) => return Err(Fault::NoMemory),
    };
    known_uuid(&key.uuid);
    match try_change(alloc, files, &change) {
        Ok(()) => {
            mark_change(chronicle, 1, files, &change);
            drop(change);
            *doubt = None;
            Ok(())
        }
        Err(Fault::Failed) => {
            mark_change(chronicle, 1, files, &change);
            drop(change);
            Err(Fault::Failed)
        }
        Err(Fault::NoMemory) => {
            drop(change);
            Err(Fault::NoMemory)
        }
    }
}

/// Puts an entry whose name is free. Nothing is in doubt before.
pub(crate) fn make_put<F: Files>(
    alloc: Global,
    files: &mut F,
    map: &mut DefMap,
    chronicle: &mut Chronicle,
    doubt: &mut Option<DefKey>,
    kind: BookKind,
    uuid: Uuid,
    entry: Entry,
) -> Result<(), Fault>
    ghost number: { ℕ }
    requires settled { doubt.old ≡ None }
    requires few { length chronicle.old.marks < 2 ^ 63 }
    requires free { IsFree kind uuid entry.name (found map.old) }
    requires good { IsChange (change.Put kind uuid entry) }
    ensures kept { IsKeptAt (F.told files.old) chronicle.old (found map.old) None → IsKeptAt (F.told files.new) chronicle.new (found map.new) doubt.new }
    ensures ok { OnOk result ((k : TheKind) (u : List ℕ) → found map.new k u ≡ changed (change.Put kind uuid entry) (found map.old) k u) }
    ensures err { OnErr result ((k : TheKind) (u : List ℕ) → found map.new k u ≡ found map.old k u) }
    ensures doubt { doubt.new ≡ doubt_after (change.Put kind uuid entry) result }
    ensures marks { HasMade number (change.Put kind uuid entry) (moment_of (F.told files.new)) chronicle.old chronicle.new result }
    ensures cause { IsErrOf result fault.Failed → Rose (F.faults files.old) (F.faults files.new) }
    ensures faults { F.faults files.old ≤ F.faults files.new }
{
    let row = match map.prepare(kind, uuid, &entry.name) {
        Ok(row) => row,
        Err(NoMemory) => {
            map.give_up(kind, uuid, &entry.name);
            drop(entry);
            return Err(Fault::NoMemory);
        }
    };
    match put(alloc, files, kind, uuid, &entry) {
        Ok(()) => {
            mark_put(chronicle, 1, files, kind, uuid, &entry);
            map.set(kind, uuid, row, entry);
            Ok(())
        }
        Err(Fault::Failed) => {
            mark_put(chronicle, 2, files, kind, uuid, &entry);
            map.give_up(kind, uuid, &entry.name);
            drop(entry);
            *doubt = Some(DefKey { kind, uuid });
            Err(Fault::Failed)
        }
        Err(Fault::NoMemory) => {
            map.give_up(kind, uuid, &entry.name);
            drop(entry);
            Err(Fault::NoMemory)
        }
    }
}

/// Drops an entry. Nothing is in doubt before.
pub(crate) fn make_drop<F: Files>(
    alloc: Global,
    files: &mut F,
    map: &mut DefMap,
    chronicle: &mut Chronicle,
    doubt: &mut Option<DefKey>,
    kind: BookKind,
    uuid: Uuid,
) -> Result<(), Fault>
    ghost number: { ℕ }
    requires settled { doubt.old ≡ None }
    requires few { length chronicle.old.marks < 2 ^ 63 }
    requires good { IsChange (change.Drop kind uuid) }
    ensures kept { IsKeptAt (F.told files.old) chronicle.old (found map.old) None → IsKeptAt (F.told files.new) chronicle.new (found map.new) doubt.new }
    ensures ok { OnOk result ((k : TheKind) (u : List ℕ) → found map.new k u ≡ changed (change.Drop kind uuid) (found map.old) k u) }
    ensures err { OnErr result ((k : TheKind) (u : List ℕ) → found map.new k u ≡ found map.old k u) }
    ensures doubt { doubt.new ≡ doubt_after (change.Drop kind uuid) result }
    ensures marks { HasMade number (change.Drop kind uuid) (moment_of (F.told files.new)) chronicle.old chronicle.new result }
    ensures cause { IsErrOf result fault.Failed → Rose (F.faults files.old) (F.faults files.new) }
    ensures faults { F.faults files.old ≤ F.faults files.new }
{
    match drop_of(alloc, files, kind, uuid) {
        Ok(()) => {
            mark_drop(chronicle, 1, files, kind, uuid);
            map.take(kind, uuid);
            Ok(())
        }
        Err(Fault::Failed) => {
            mark_drop(chronicle, 2, files, kind, uuid);
            *doubt = Some(DefKey { kind, uuid });
            Err(Fault::Failed)
        }
        Err(Fault::NoMemory) => Err(Fault::NoMemory),
    }
}

// Makes a change whose name is free. Nothing is in doubt before.
fn make<F: Files>(
    alloc: Global,
    files: &mut F,
    map: &mut DefMap,
    chronicle: &mut Chronicle,
    doubt: &mut Option<DefKey>,
    change: Change,
) -> Result<(), Fault>
    ghost number: { ℕ }
    requires settled { doubt.old ≡ None }
    requires few { length chronicle.old.marks < 2 ^ 63 }
    requires free { IsFreeFor change (found map.old) }
    requires good { IsChange change }
    ensures kept { IsKeptAt (F.told files.old) chronicle.old (found map.old) None → IsKeptAt (F.told files.new) chronicle.new (found map.new) doubt.new }
    ensures ok { OnOk result ((k : TheKind) (u : List ℕ) → found map.new k u ≡ changed change (found map.old) k u) }
    ensures err { OnErr result ((k : TheKind) (u : List ℕ) → found map.new k u ≡ found map.old k u) }
    ensures doubt { doubt.new ≡ doubt_after change result }
    ensures marks { HasMade number change (moment_of (F.told files.new)) chronicle.old chronicle.new result }
    ensures cause { IsErrOf result fault.Failed → Rose (F.faults files.old) (F.faults files.new) }
    ensures faults { F.faults files.old ≤ F.faults files.new }
{
    match change {
        Change::Put { kind, uuid, entry } => {
            make_put(alloc, files, map, chronicle, doubt, kind, uuid, entry)
        }
        Change::Drop { kind, uuid } => {
            make_drop(alloc, files, map, chronicle, doubt, kind, uuid)
        }
    }
}

// Who else has the name of what is put, if anybody.
fn taken_by(map: &DefMap, change: &Change) -> Option<Uuid>
    ensures { IsTakenBy change.now (found map.now) result }
{
    match change {
        Change::Put { kind, uuid, entry } => match map.uuid_of(*kind, &entry.name) {
            Some(other) => {
                if other == *uuid {
                    return None;
                }
                Some(other)
            }
            None => None,
        },
        Change::Drop { .. } => None,
    }
}

fn uuid_of(change: &Change) -> Uuid
    ensures { result ≡ uuid_of change.now }
{
    match change {
        Change::Put { uuid, .. } => *uuid,
        Change::Drop { uuid, .. } => *uuid,
    }
}

// The mark of an answer, for a change that was not tried.
fn mark_answer<F: Files>(
    chronicle: &mut Chronicle,
    _files: &F,
    _change: &Change,
    _answer: StoreFault,
)
    ghost more: { List StoreMark }
    requires one { length more ≡ 1 }
    requires few { length chronicle.old.marks + 1 < 2 ^ 64 }
    ensures { chronicle.new ≡ with_marks more chronicle.old }
{
    chronicle.tell(1);
}

// Refuses a name that another object of the kind has.
fn refuse<F: Files>(files: &F, chronicle: &mut Chronicle, change: &Change, one: Uuid) -> StoreFault
    ghost number: { ℕ }
    requires few { length chronicle.old.marks < 2 ^ 63 }
    ensures fault { result ≡ store.NameKept one (uuid_of change.now) }
    ensures marks { chronicle.new ≡ with_marks (by number (action.Changed change.now (Err (store.NameKept one (uuid_of change.now))) (moment_of (F.told files.now))) ∷ []) chronicle.old }
{
    let two = uuid_of(change);
    mark_answer(chronicle, files, change, StoreFault::NameKept { one, two });
    StoreFault::NameKept { one, two }
}

// Leaves the mark of a change that was not tried, since what was in doubt could not be settled.
fn fail<F: Files>(files: &F, chronicle: &mut Chronicle, change: &Change)
    ghost number: { ℕ }
    requires few { length chronicle.old.marks < 2 ^ 63 + 1 }
    ensures { chronicle.new ≡ with_marks (by number (action.Changed change.now (Err store.Device) (moment_of (F.told files.now))) ∷ []) chronicle.old }
{
    mark_answer(chronicle, files, change, StoreFault::Device);
}

// Settles what is in doubt, and makes a change whose name is free.
fn change_free<F: Files>(
    alloc: Global,
    files: &mut F,
    map: &mut DefMap,
    chronicle: &mut Chronicle,
    doubt: &mut Option<DefKey>,
    change: Change,
) -> Result<(), Fault>
    ghost number: { ℕ }
    requires few { length chronicle.old.marks < 2 ^ 62 }
    requires change { IsChange change }
    requires free { IsFreeFor change (found map.old) }
    requires good { AllGood (found map.old) }
    ensures kept { IsKeptAt (F.told files.old) chronicle.old (found map.old) doubt.old → IsKeptAt (F.told files.new) chronicle.new (found map.new) doubt.new }
    ensures ok { OnOk result ((k : TheKind) (u : List ℕ) → found map.new k u ≡ changed change (found map.old) k u) }
    ensures err { OnErr result ((k : TheKind) (u : List ℕ) → found map.new k u ≡ found map.old k u) }
    ensures doubt { IsDoubtAfter change doubt.old doubt.new (as_answer result) }
    ensures marks { HasLeft number change doubt.old (found map.old) (moment_of (F.told files.new)) chronicle.old chronicle.new (as_answer result) }
    ensures cause { IsErrOf result fault.Failed → Rose (F.faults files.old) (F.faults files.new) }
    ensures faults { F.faults files.old ≤ F.faults files.new }
{
    match settle(alloc, files, map, chronicle, doubt) {
        Ok(()) => make(alloc, files, map, chronicle, doubt, change),
        Err(Fault::Failed) => {
            fail(files, chronicle, &change);
            drop(change);
            Err(Fault::Failed)
        }
        Err(Fault::NoMemory) => {
            drop(change);
            Err(Fault::NoMemory)
        }
    }
}

/// Settles what is in doubt, and makes a change.
pub(crate) fn change_in<F: Files>(
    alloc: Global,
    files: &mut F,
    map: &mut DefMap,
    chronicle: &mut Chronicle,
    doubt: &mut Option<DefKey>,
    change: Change,
) -> Result<(), OrNoMemory<StoreFault>>
    ghost number: { ℕ }
    requires change { IsChange change }
    requires good { AllGood (found map.old) }
    ensures kept { IsKeptAt (F.told files.old) chronicle.old (found map.old) doubt.old → IsKeptAt (F.told files.new) chronicle.new (found map.new) doubt.new }
    ensures ok { OnOk result ((k : TheKind) (u : List ℕ) → found map.new k u ≡ changed change (found map.old) k u) }
    ensures err { OnErr result ((k : TheKind) (u : List ℕ) → found map.new k u ≡ found map.old k u) }
    ensures doubt { IsDoubtAfter change doubt.old doubt.new result }
    ensures names { Refuses change (found map.old) result }
    ensures quiet { IsQuiet files.old files.new result }
    ensures marks { HasLeft number change doubt.old (found map.old) (moment_of (F.told files.new)) chronicle.old chronicle.new result }
    ensures cause { HasDevice (F.faults files.old) (F.faults files.new) result }
    ensures faults { F.faults files.old ≤ F.faults files.new }
{
    if chronicle.marks() >= MOST {
        drop(change);
        return Err(OrNoMemory::NoMemory);
    }
    match taken_by(map, &change) {
        Some(one) => {
            let fault = refuse(files, chronicle, &change, one);
            drop(change);
            Err(OrNoMemory::Fault(fault))
        }
        None => match change_free(alloc, files, map, chronicle, doubt, change) {
            Ok(()) => Ok(()),
            Err(Fault::Failed) => Err(OrNoMemory::Fault(StoreFault::Device)),
            Err(Fault::NoMemory) => Err(OrNoMemory::NoMemory),
        },
    }
}
