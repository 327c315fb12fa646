// The calls on snapshots. None asks anything as a call; a Snapshot and a Revert that pass their tests
// go on as operations.
ghost use Rattle.std.specs.Prelude.{◌≡◌, ◌++◌, [], IfOk, IsOk, None, false};
ghost use Rattle.core_rules.specs.Cores.{core_of_call};
ghost use Rattle.core_rules.specs.Led.{Says};
ghost use Rattle.core_rules.specs.Next.{next_of};
ghost use Rattle.core_rules.specs.declared.cores.Core.TheVariants as core;
ghost use Rattle.domain_spec.specs.Sequential.{meets_ended, seq, still_asked};
ghost use Rattle.domain_spec.specs.Types.call;
ghost use Rattle.domain_spec.specs.Types.state;
ghost use Rattle.snapshot_core.specs.Deletion.{FitsDeletion};
ghost use Rattle.snapshot_core.specs.Steps.{held_seq, tested_seq};
ghost use Rattle.snapshot_core.specs.Fits.{FitsCall, IsFor};

use crate::deletion::{Deletion, delete};
use crate::judging::{judge_deletion, judge_revert, judge_snapshot};
use crate::made::Parts;
use core_rules::{CallEnd, Next, Reason, Texts, call_ended, failure_of, first_bad, meets_ended};
use std::alloc::Global;
use virt_types::{
    Answer, Ask, Call, Domain, Name, NoMemory, RefusalCode, SnapInfo, State, TransitionList,
};

/// What is next for the call: it can be finished, since none of these calls asks anything.
pub fn next(
    _state: &State,
    _call: &Call,
    _boot: Option<u64>,
    _answers: &[Answer],
) -> Result<Next, NoMemory>
    requires core { core_of_call _call.now ≡ core.Snapshot }
    ensures asked { IfOk result (λ next. next ≡ next_of (still_asked _state.now _call.now _boot _answers.now)) }
    ensures succeeds { IsOk result }
{
    Ok(Next::Finish)
}

fn deletion_for(alloc: Global, state: &State, call: &Call) -> Result<Option<Deletion>, NoMemory>
    ensures { IfOk result (λ deletion. FitsCall deletion state.now call.now) }
{
    match (state, call) {
        (State::Held(domain), Call::SnapDelete { name, children }) => Ok(Some(Deletion::new(
            alloc,
            &domain.snaps,
            name.as_ref(),
            *children,
        )?)),
        _ => Ok(None),
    }
}

/// What the call needs in this state.
pub fn parts(alloc: Global, state: &State, call: &Call) -> Result<Parts, NoMemory>
    ensures { IfOk result (λ parts. IsFor parts state.now call.now) }
{
    Ok(Parts {
        texts: Texts::new(alloc)?,
        deletion: deletion_for(alloc, state, call)?,
    })
}

// Deletes a snapshot, unless a test or an answer forbids it.
fn finish_deletion(
    domain: &mut Domain,
    name: &Name,
    children: bool,
    answers: &[Answer],
    texts: Texts,
    deletion: Deletion,
) -> CallEnd
    requires { FitsDeletion deletion domain.old.snaps name.now children }
    ensures state { state.Held domain.new ≡ (held_seq domain.old (call.SnapDelete name.now children) None answers.now).state }
    ensures reply { Says result (held_seq domain.old (call.SnapDelete name.now children) None answers.now).reply }
    ensures transitions { (held_seq domain.old (call.SnapDelete name.now children) None answers.now).transitions ≡ [] }
{
    match judge_deletion(domain, name, texts) {
        Err(end) => end,
        Ok(texts) => match first_bad(answers) {
            Some(bad) => texts.refused(failure_of(bad)),
            None => {
                delete(domain, name, children, deletion);
                CallEnd::done()
            }
        },
    }
}

// A Snapshot as a call: it changes nothing.
fn finish_snapshot(domain: &Domain, info: &SnapInfo, answers: &[Answer], texts: Texts) -> CallEnd
    ensures state { (held_seq domain.now (call.Snapshot info.now) None answers.now).state ≡ state.Held domain.now }
    ensures reply { Says result (held_seq domain.now (call.Snapshot info.now) None answers.now).reply }
    ensures transitions { (held_seq domain.now (call.Snapshot info.now) None answers.now).transitions ≡ [] }
{
    match judge_snapshot(domain, info, texts) {
        Err(end) => end,
        Ok(texts) => match first_bad(answers) {
            Some(bad) => texts.refused(failure_of(bad)),
            None => CallEnd::done(),
        },
    }
}

// A Revert as a call: it changes nothing.
fn finish_revert(domain: &Domain, name: &Name, answers: &[Answer], texts: Texts) -> CallEnd
    ensures state { (held_seq domain.now (call.Revert name.now) None answers.now).state ≡ state.Held domain.now }
    ensures reply { Says result (held_seq domain.now (call.Revert name.now) None answers.now).reply }
    ensures transitions { (held_seq domain.now (call.Revert name.now) None answers.now).transitions ≡ [] }
{
    match judge_revert(domain, name, texts) {
        Err(end) => end,
        Ok(texts) => match first_bad(answers) {
            Some(bad) => texts.refused(failure_of(bad)),
            None => CallEnd::done(),
        },
    }
}

// A call on the snapshots of a domain. Its tests look at no boot that it carries.
fn finish_held(
    domain: &mut Domain,
    call: &Call,
    _boot: Option<u64>,
    answers: &[Answer],
    parts: Parts,
) -> CallEnd
    requires core { core_of_call call.now ≡ core.Snapshot }
    requires fits { FitsCall parts.deletion (state.Held domain.old) call.now }
    ensures state { state.Held domain.new ≡ (held_seq domain.old call.now _boot answers.now).state }
    ensures reply { Says result (held_seq domain.old call.now _boot answers.now).reply }
    ensures transitions { (held_seq domain.old call.now _boot answers.now).transitions ≡ [] }
{
    let Parts { texts, deletion } = parts;
    match call {
        Call::SnapDelete { name, children } => match deletion {
            Some(deletion) => {
                finish_deletion(domain, name.as_ref(), *children, answers, texts, deletion)
            }
            None => unreachable!(),
        },
        Call::Snapshot(info) => {
            drop(deletion);
            finish_snapshot(domain, info.as_ref(), answers, texts)
        }
        Call::Revert(name) => {
            drop(deletion);
            finish_revert(domain, name, answers, texts)
        }
        _ => unreachable!(),
    }
}

fn let_go(parts: Parts) -> Texts
    ensures { result ≡ parts.texts }
{
    let Parts { texts, deletion } = parts;
    drop(deletion);
    texts
}

// A call on snapshots whose boot has not ended.
fn finish_tested(
    state: &mut State,
    call: &Call,
    boot: Option<u64>,
    answers: &[Answer],
    parts: Parts,
) -> CallEnd
    requires core { core_of_call call.now ≡ core.Snapshot }
    requires fits { IsFor parts state.old call.now }
    ensures state { state.new ≡ (tested_seq state.old call.now boot answers.now).state }
    ensures reply { Says result (tested_seq state.old call.now boot answers.now).reply }
    ensures transitions { (tested_seq state.old call.now boot answers.now).transitions ≡ [] }
{
    match state {
        State::Vacant { .. } => { let_go(parts).refused(Reason::Bare(RefusalCode::NoDomain)) }
        State::Held(domain) => finish_held(domain, call, boot, answers, parts),
    }
}

/// The call is done: the state, what its caller is told, and no transitions.
pub fn finish(
    state: &mut State,
    call: &Call,
    boot: Option<u64>,
    answers: &[Answer],
    parts: Parts,
    _into: &mut TransitionList,
) -> CallEnd
    requires core { core_of_call call.now ≡ core.Snapshot }
    requires fits { meets_ended state.old call.now boot ≡ false → IsFor parts state.old call.now }
    ensures state { state.new ≡ (seq state.old call.now boot answers.now).state }
    ensures reply { Says result (seq state.old call.now boot answers.now).reply }
    ensures transitions { _into.new.list ≡ _into.old.list ++ (seq state.old call.now boot answers.now).transitions }
{
    if meets_ended(state, call, boot) {
        call_ended(state, call, boot, let_go(parts))
    } else {
        finish_tested(state, call, boot, answers, parts)
    }
}
