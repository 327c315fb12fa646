// A call looks whether it is let in.
ghost use Rattle.std.specs.Prelude.{◌≡◌, ℕ, ◌↔◌, ◌⊎◌, ◌≤◌, ◌+◌, ◌∷◌, [], IfErr, IfOk, IsErr, None, OnErr, OnOk};
ghost use Rattle.std.specs.Vec.{vec_len};
ghost use Rattle.domain_spec.specs.Call.{begins, job_of, takes_up};
ghost use Rattle.domain_spec.specs.Kept.{joined_queue, left_queue, looks_of};
ghost use Rattle.domain_spec.specs.Legal.{IsLawful};
ghost use Rattle.domain_spec.specs.JobTable.{May};
ghost use Rattle.domain_spec.specs.Open.{Excludes, IsCrowded, job_held, operation_held};
ghost use Rattle.domain_spec.specs.Reading.{live_boot};
ghost use Rattle.domain_spec.specs.declared.mark.Mark.TheVariants as mark;
ghost use Rattle.job_rules.specs.QueueWaiting.{callers_in};
ghost use Rattle.core_log.specs.Record.{force_of};
ghost use Rattle.core_steps.specs.Rooms.{HasEnd};
ghost use Rattle.core_steps.specs.Looking.{Enters, IsTurned, LooksSo, Waits, boot_first, with_room};

use crate::held::OneRoom;
use crate::jobs::jobs_held;
use core_log::{Entry, Record, job_of};
use core_rules::live_boot;
use domain_spec::{First, HeldJobs};
use history_spec::Stamp;
use job_rules::{JobRecord, Queue, WaitersFull, admits};
use std::alloc::Global;
use virt_types::{Ask, Boxed, Call, NoMemory, RefusalCode, Reply, Who, WhoList, both};

/// What became of a call that looked.
#[derive(Drop)]
pub enum Looked {
    /// It is done; its caller is told this.
    Done(Reply),
    /// It asks this.
    Away(Ask),
    /// Its job is excluded, and it waits.
    Excluded {
        /// What is held.
        held: JobRecord,
        /// The live boot.
        boot: Option<u64>,
        /// How many of its looks found it so.
        looks: u32,
    },
    /// Its job is excluded, and it may not wait, since so many others do.
    WaitersFull(u32),
    /// There was no memory for it, and nothing is left of it.
    NoMemory,
}

// The boot that the call carries.
fn boot_first(kept: &Record, first: First) -> Option<u64>
    ensures { result ≡ boot_first first (live_boot (force_of kept.now).state) }
{
    match first {
        First::Now => live_boot(kept.state()),
        First::Boot(boot) => boot,
    }
}

/// Room for the marks of a call, or of a phase, and for what a boot's end tells while it is away, besides the
/// rooms that ears need which are out.
pub fn make_room(
    kept: &mut Record,
    rooms: &mut Vec<OneRoom>,
    alloc: Global,
    lent: usize,
) -> Result<(), NoMemory>
    requires few { vec_len rooms.old ≤ 128 }
    requires lent { (lent ≤ 1) × (lent ≤ vec_len rooms.old) }
    ensures same { kept.new ≡ with_room kept.old kept.new.spare }
    ensures marks { OnOk result (6 + vec_len rooms.new ≤ kept.new.spare) }
    ensures rooms { OnOk result (1 + lent ≤ vec_len rooms.new) }
    ensures grown { (vec_len rooms.old ≤ vec_len rooms.new) × (vec_len rooms.new ≤ 128) }
    ensures stays { kept.old.spare ≤ kept.new.spare }
    ensures err { OnErr result (vec_len rooms.new ≡ vec_len rooms.old) }
{
    kept.reserve(7 + rooms.len())?;
    if rooms.len() <= lent {
        rooms.reserve(1)?;
        rooms.push_reserved(OneRoom::new(alloc)?);
    }
    Ok(())
}

// A call that was admitted is let in, and waits no more.
fn enter(
    kept: &mut Record,
    queue: &mut Queue,
    alloc: Global,
    by: Stamp,
    who: Who,
    call: &Call,
    boot: Option<u64>,
) -> Looked
    requires room { 3 ≤ kept.old.spare }
    requires begins { begins call.now ≡ None }
    requires takes { takes_up call.now ≡ None }
    requires lawful { IsLawful (force_of kept.old) (mark.Admit by.number who (job_of call.now) call.now boot) }
    ensures enters { Enters by.number who call.now boot kept.old kept.new queue.old queue.new result }
    ensures spare { kept.old.spare ≤ kept.new.spare + 3 }
{
    let entry = kept.let_in(alloc, by.again(), who, call, boot);
    leave(queue, by, who);
    match entry {
        Entry::Done(reply) => Looked::Done(reply),
        Entry::Away(ask) => Looked::Away(ask),
        Entry::NoMemory => Looked::NoMemory,
    }
}

/// The caller waits no more, nor the pass of this stamp.
pub fn leave(queue: &mut Queue, by: Stamp, who: Who)
    ensures { queue.new ≡ left_queue queue.old by.number who }
{
    leave_as(queue, &by, who);
}

// The number of a stamp is named in two steps, since a pick sees the callee's arguments alone.
fn leave_as(queue: &mut Queue, by: &Stamp, who: Who)
    ghost number: { ℕ }
    requires { by.now.number ≡ number }
    ensures { queue.new ≡ left_queue queue.old number who }
{
    queue.leave(who);
}

// The caller waits, by the pass of this stamp.
fn join(queue: &mut Queue, by: &Stamp, who: Who) -> Result<u32, WaitersFull>
    ensures ok { OnOk result (queue.new ≡ joined_queue queue.old by.now.number who) }
    ensures looks { IfOk result (λ looks. looks ≡ looks_of queue.new.callers who) }
    ensures crowded { IsErr result ↔ IsCrowded (callers_in queue.old) who }
    ensures count { IfErr result (λ full. full.waiting ≡ 32) }
    ensures err { OnErr result (queue.new ≡ queue.old) }
{
    join_as(queue, by, who)
}

// Likewise.
fn join_as(queue: &mut Queue, by: &Stamp, who: Who) -> Result<u32, WaitersFull>
    ghost number: { ℕ }
    requires { by.now.number ≡ number }
    ensures ok { OnOk result (queue.new ≡ joined_queue queue.old number who) }
    ensures looks { IfOk result (λ looks. looks ≡ looks_of queue.new.callers who) }
    ensures crowded { IsErr result ↔ IsCrowded (callers_in queue.old) who }
    ensures count { IfErr result (λ full. full.waiting ≡ 32) }
    ensures err { OnErr result (queue.new ≡ queue.old) }
{
    queue.look(who)
}

// What a Refused mark needs: a copy of the call, and who waits.
fn refusal_parts(
    kept: &mut Record,
    queue: &Queue,
    rooms: usize,
    alloc: Global,
    call: &Call,
) -> Result<(Boxed<Call>, WhoList), NoMemory>
    requires few { rooms ≤ 128 }
    ensures same { kept.new ≡ with_room kept.old kept.new.spare }
    ensures marks { OnOk result (4 + rooms ≤ kept.new.spare) }
    ensures stays { kept.old.spare ≤ kept.new.spare }
    ensures call { IfOk result (λ parts. parts.0 ≡ call.now) }
    ensures waiting { IfOk result (λ parts. parts.1 ≡ callers_in queue.now) }
{
    kept.reserve(4 + rooms)?;
    both(Boxed::copy_of(alloc, call), queue.callers(alloc))
}

// A call is turned away, since 32 others wait.
fn turn_away(
    kept: &mut Record,
    by: Stamp,
    who: Who,
    call: Boxed<Call>,
    held: JobRecord,
    waiting: WhoList,
)
    requires room { 1 ≤ kept.old.spare }
    requires lost { (force_of kept.old).lost ≡ None }
    requires active { held.active ≡ job_held (force_of kept.old).job }
    requires op { held.op ≡ operation_held (force_of kept.old).operation }
    requires excluded { Excludes held.active held.op call who }
    requires crowded { IsCrowded waiting who }
    ensures turned { IsTurned by.number who call (record { active = held.active; op = held.op; waiting = waiting }) kept.old kept.new }
    ensures spare { kept.new.spare + 1 ≡ kept.old.spare }
{
    let jobs = HeldJobs {
        active: held.active,
        op: held.op,
        waiting,
    };
    kept.refuse(by, who, call, RefusalCode::TooManyWaiting, jobs);
}

/// A call that is excluded waits; or it is turned away, where 32 others wait.
pub fn wait(
    kept: &mut Record,
    queue: &mut Queue,
    rooms: usize,
    alloc: Global,
    by: Stamp,
    who: Who,
    call: &Call,
    held: JobRecord,
) -> Looked
    requires few { rooms ≤ 128 }
    requires active { held.active ≡ job_held (force_of kept.old).job }
    requires op { held.op ≡ operation_held (force_of kept.old).operation }
    requires excluded { Excludes held.active held.op call.now who }
    ensures waits { Waits by.number who call.now kept.old kept.new queue.old queue.new result }
    ensures course { kept.new.course ≡ kept.old.course }
    ensures room { ((kept.new ≡ with_room kept.old kept.new.spare) × (kept.old.spare ≤ kept.new.spare)) ⊎ (3 + rooms ≤ kept.new.spare) }
{
    match join(queue, &by, who) {
        Ok(looks) => Looked::Excluded {
            held,
            boot: live_boot(kept.state()),
            looks,
        },
        Err(full) => match refusal_parts(kept, queue, rooms, alloc, call) {
            Ok((copy, waiting)) => {
                kept.state();
                turn_away(kept, by.again(), who, copy, held, waiting);
                leave(queue, by, who);
                Looked::WaitersFull(full.waiting as u32)
            }
            Err(NoMemory) => {
                leave(queue, by, who);
                Looked::NoMemory
            }
        },
    }
}

/// A call looks: it is let in where its job may be taken, and else waits or is turned away. Ears that are out need
/// `lent` rooms.
#[tactic(auto, using(crate::proofs::Roomy::end_fits, crate::proofs::Roomy::end_stays))]
pub fn look(
    kept: &mut Record,
    queue: &mut Queue,
    rooms: &mut Vec<OneRoom>,
    lent: usize,
    alloc: Global,
    by: Stamp,
    who: Who,
    call: &Call,
    first: First,
) -> Looked
    requires few { vec_len rooms.old ≤ 128 }
    requires lent { (lent ≤ 1) × (lent ≤ vec_len rooms.old) }
    requires marks { HasEnd kept.old (vec_len rooms.old) }
    requires begins { begins call.now ≡ None }
    requires takes { takes_up call.now ≡ None }
    requires lawful { May (job_held (force_of kept.old).job) (operation_held (force_of kept.old).operation) (job_of call.now) who → IsLawful (force_of kept.old) (mark.Admit by.number who (job_of call.now) call.now (boot_first first (live_boot (force_of kept.old).state))) }
    ensures looks { LooksSo by.number who call.now (boot_first first (live_boot (force_of kept.old).state)) kept.old kept.new queue.old queue.new result }
    ensures marks { HasEnd kept.new (vec_len rooms.new) }
    ensures rooms { (vec_len rooms.old ≤ vec_len rooms.new) × (vec_len rooms.new ≤ 128) }
    ensures room { (1 + lent ≤ vec_len rooms.new) ⊎ (kept.new.course ≡ kept.old.course) }
{
    let held = jobs_held(kept);
    if admits(&held, job_of(call), who) {
        let boot = boot_first(kept, first);
        match make_room(kept, rooms, alloc, lent) {
            Ok(()) => enter(kept, queue, alloc, by, who, call, boot),
            Err(NoMemory) => {
                leave(queue, by, who);
                Looked::NoMemory
            }
        }
    } else {
        wait(kept, queue, rooms.len(), alloc, by, who, call, held)
    }
}
