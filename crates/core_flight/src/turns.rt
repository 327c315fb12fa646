// The turns of an open call, over the chapter.
ghost use Rattle.std.specs.Prelude.{◌≡◌, ◌≤◌, ◌+◌, ◌++◌, None, Some};
ghost use Rattle.domain_spec.specs.Call.{begins, job_of, takes_up};
ghost use Rattle.domain_spec.specs.Legal.{IsLawful};
ghost use Rattle.domain_spec.specs.declared.mark.Mark.TheVariants as mark;
ghost use Rattle.core_plan.specs.AwayLaws.{made};
ghost use Rattle.core_chapter.specs.Closing.{CanDo, done_in, told_in};
ghost use Rattle.core_flight.specs.Away.{HasRooms, IsOut};
ghost use Rattle.core_flight.specs.Turn.{CanGoOn, Enters, IsReady, MayAnswerCall, Resumes, StaysAway, TurnsTo, force_in, is_over};
ghost use Rattle.core_flight.specs.declared.out.Out.TheVariants as out;

use crate::away::{Away, Ready};
use core_chapter::Chapter;
use core_rules::meets_ended;
use history_spec::Stamp;
use virt_types::{Answer, Ask, Call, Job, Reply, Who};

/// What the turn of an open call comes to.
#[derive(Drop)]
pub enum Turn {
    /// It asks this.
    Away(Away, Ask),
    /// It is done; its caller is told this.
    Done(Reply),
}

/// The job that a call takes.
pub fn job_of(call: &Call) -> Job
    ensures { result ≡ job_of call.now }
{
    match call {
        Call::Suspend => Job::Suspend,
        Call::Destroy => Job::Destroy,
        Call::MemoryStats | Call::Kick(_) => Job::Query,
        Call::Abort => Job::Abort,
        Call::Limit(_) | Call::Confirm(_) | Call::Finish(_) => Job::MigrationOp,
        _ => Job::Modify,
    }
}

/// The open call is done with what its course made.
pub fn close(chapter: &mut Chapter, by: Stamp, away: Away) -> Reply
    requires room { 2 ≤ chapter.old.spare }
    requires rooms { HasRooms away }
    requires can { CanDo (force_in chapter.old) (force_in chapter.old).job away.parts by (made away.course) away.course.answers }
    ensures history { chapter.new.history ≡ record chapter.old.history { marks = chapter.old.history.marks ++ done_in (force_in chapter.old) by (made away.course) away.course.answers } }
    ensures told { result ≡ told_in (force_in chapter.old) away.course.answers }
    ensures spare { chapter.old.spare ≤ chapter.new.spare + 2 }
{
    let Away {
        course,
        parts,
        told,
        end,
        reply,
    } = away;
    let (asks, answers) = course.into_lists();
    chapter.done(by, asks, answers, parts, told, end, reply)
}

// The open call asks what is next, or is done where nothing is.
fn go_on(chapter: &mut Chapter, by: Stamp, away: Away) -> Turn
    requires room { 2 ≤ chapter.old.spare }
    requires rooms { HasRooms away }
    requires can { CanGoOn (force_in chapter.old) away.parts by away.course }
    ensures turn { TurnsTo by away chapter.old chapter.new result }
    ensures spare { chapter.old.spare ≤ chapter.new.spare + 2 }
{
    let mut away = away;
    match away.course.go_on() {
        Some(ask) => Turn::Away(away, ask),
        None => Turn::Done(close(chapter, by, away)),
    }
}

/// A call that was admitted is let in.
pub fn enter(
    chapter: &mut Chapter,
    by: Stamp,
    who: Who,
    call: &Call,
    boot: Option<u64>,
    ready: Ready,
) -> Turn
    requires room { 3 ≤ chapter.old.spare }
    requires begins { begins call.now ≡ None }
    requires takes { takes_up call.now ≡ None }
    requires lost { (force_in chapter.old).lost ≡ None }
    requires lawful { IsLawful (force_in chapter.old) (mark.Admit by.number who (job_of call.now) call.now boot) }
    requires ready { IsReady (force_in chapter.old).state call.now boot ready }
    ensures turn { Enters by.number who call.now boot chapter.old chapter.new result }
    ensures spare { chapter.old.spare ≤ chapter.new.spare + 3 }
{
    let Ready { away, own, in_mark } = ready;
    chapter.admit(by.again(), who, job_of(call), own, in_mark, boot);
    go_on(chapter, by, away)
}

// Whether the boot of the open call has ended.
fn is_over(chapter: &Chapter) -> bool
    ensures { result ≡ is_over (force_in chapter.now) (force_in chapter.now).job }
{
    match chapter.job() {
        None => false,
        Some(job) => meets_ended(chapter.state(), job.call(), job.boot()),
    }
}

/// The ask that the call made last is answered so.
pub fn resume(chapter: &mut Chapter, by: Stamp, away: Away, answer: Answer) -> Turn
    requires room { 2 ≤ chapter.old.spare }
    requires lost { (force_in chapter.old).lost ≡ None }
    requires out { IsOut (force_in chapter.old) (force_in chapter.old).job (Some (out.Call away)) }
    requires may { MayAnswerCall (force_in chapter.old) (force_in chapter.old).job away.course by.number answer }
    ensures turn { Resumes by.number away.course answer chapter.old chapter.new result }
    ensures spare { chapter.old.spare ≤ chapter.new.spare + 2 }
    ensures stays { StaysAway chapter.old chapter.new result }
{
    let mut away = away;
    away.course.answer(answer);
    if is_over(chapter) {
        Turn::Done(close(chapter, by, away))
    } else {
        go_on(chapter, by, away)
    }
}
