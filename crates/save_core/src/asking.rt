// What a phase asks next.
ghost use Rattle.std.specs.Prelude.{◌≡◌, IfOk, OnErr, option_map, true};
ghost use Rattle.core_rules.specs.Cores.{Serves, core_of_phase, core_on};
ghost use Rattle.core_rules.specs.Next.{is_ask, next_of};
ghost use Rattle.core_rules.specs.declared.cores.Core.TheVariants as core;
ghost use Rattle.domain_spec.specs.Asks.{asks_left, first_value};
ghost use Rattle.domain_spec.specs.Phase.{phase_still_asked, plan_on};
ghost use Rattle.domain_spec.specs.PhaseAsks.{copied_bytes, live_phase_plan, loaded_of};
ghost use Rattle.domain_spec.specs.Types.ask;
ghost use Rattle.save_core.specs.Steps.{ask_of, saved_in, written};

use crate::loaded_from::loaded_of;
use crate::steps::{Step, step_at};
use core_rules::{Next, carries_ended, first_value, place_after};
use domain_spec::OpenOperation;
use std::alloc::Global;
use virt_types::{
    Answer, AnswerValue, Ask, Boxed, Bytes, Call, Command, Domain, ImageKind, Live,
    MOST_STATE_BYTES, Name, NoMemory, Op, State, TryCopy, both,
};

// The state that a copy has handed over. Bytes above 4,096, or none, are no state.
fn copied_bytes(alloc: Global, value: Option<&AnswerValue>) -> Result<Boxed<Bytes>, NoMemory>
    ensures { IfOk result (λ bytes. bytes ≡ copied_bytes (option_map (λ v. v.now) value.entry)) }
{
    match value {
        Some(AnswerValue::Bytes(bytes)) if bytes.len() <= MOST_STATE_BYTES => {
            Boxed::copy_of(alloc, bytes)
        }
        _ => Boxed::new(alloc, Bytes::copy_of(alloc, [].as_slice())?),
    }
}

// The bytes that are loaded.
fn saved_bytes(alloc: Global, domain: &Domain, call: &Call) -> Result<Bytes, NoMemory>
    ensures { IfOk result (λ bytes. bytes ≡ saved_in (loaded_of domain.now call.now)) }
{
    match loaded_of(domain, call) {
        Some(loaded) => loaded.saved.copy(),
        None => Bytes::copy_of(alloc, [].as_slice()),
    }
}

fn image(
    alloc: Global,
    name: &Name,
    kind: ImageKind,
    live: &Live,
    op: &Op,
    answers: &[Answer],
) -> Result<Ask, NoMemory>
    ensures { IfOk result (λ a. a ≡ ask.WriteImage name.now kind op.now.was_running live.now.def (copied_bytes (first_value answers.now))) }
{
    let (name, (definition, bytes)) = both(
        Boxed::copy_of(alloc, name),
        both(
            Boxed::copy_of(alloc, &live.def),
            copied_bytes(alloc, first_value(answers)),
        ),
    )?;
    Ok(Ask::WriteImage {
        name,
        kind,
        definition,
        running: op.was_running,
        bytes,
    })
}

// What a save and a dump write.
fn written(
    alloc: Global,
    live: &Live,
    op: &Op,
    call: &Call,
    answers: &[Answer],
) -> Result<Ask, NoMemory>
    ensures { IfOk result (λ a. a ≡ written live.now op.now call.now answers.now) }
{
    match call {
        Call::Save(name) => image(alloc, name, ImageKind::Save, live, op, answers),
        Call::Dump(name) => image(alloc, name, ImageKind::Dump, live, op, answers),
        _ => Ok(Ask::Command(Command::CopyTake)),
    }
}

// The ask that a step makes.
fn ask_of(
    alloc: Global,
    domain: &Domain,
    live: &Live,
    op: &Op,
    call: &Call,
    answers: &[Answer],
    step: Step,
) -> Result<Ask, NoMemory>
    ensures { IfOk result (λ a. a ≡ ask_of domain.now live.now op.now call.now answers.now step) }
{
    match step {
        Step::Stop => Ok(Ask::Command(Command::Stop)),
        Step::Begin => Ok(Ask::Command(Command::CopyBegin)),
        Step::Poll => Ok(Ask::Command(Command::CopyPoll)),
        Step::Take => Ok(Ask::Command(Command::CopyTake)),
        Step::Write => written(alloc, live, op, call, answers),
        Step::GiveUp => Ok(Ask::Command(Command::CopyCancel)),
        Step::Load => Ok(Ask::Command(Command::LoadState(saved_bytes(alloc, domain, call)?))),
        Step::Cont => Ok(Ask::Command(Command::Cont)),
        Step::Quit => Ok(Ask::Command(Command::Quit)),
    }
}

#[tactic(auto, using(core_rules::proofs::NextAsk::next_is_at))]
fn next_on_guest(
    alloc: Global,
    domain: &Domain,
    live: &Live,
    op: &Op,
    call: &Call,
    answers: &[Answer],
) -> Result<Next, NoMemory>
    requires save { core_of_phase op.now.phase call.now ≡ core.Save }
    ensures asked { IfOk result (λ next. next ≡ next_of (asks_left (live_phase_plan domain.now live.now op.now call.now answers.now op.now.phase) answers.now)) }
    ensures memory { OnErr result (is_ask (next_of (asks_left (live_phase_plan domain.now live.now op.now call.now answers.now op.now.phase) answers.now)) ≡ true) }
{
    match step_at(domain, live, op, call, place_after(answers)) {
        None => Ok(Next::Finish),
        Some(step) => Ok(Next::Ask(ask_of(alloc, domain, live, op, call, answers, step)?)),
    }
}

#[tactic(auto, using(crate::proofs::NothingLeft::nothing_left))]
fn next_on(
    alloc: Global,
    domain: &Domain,
    call: &Call,
    answers: &[Answer],
) -> Result<Next, NoMemory>
    requires save { core_on domain.now.op call.now ≡ core.Save }
    ensures asked { IfOk result (λ next. next ≡ next_of (asks_left (plan_on domain.now domain.now.op call.now answers.now) answers.now)) }
    ensures memory { OnErr result (is_ask (next_of (asks_left (plan_on domain.now domain.now.op call.now answers.now) answers.now)) ≡ true) }
{
    match (&domain.op, &domain.live) {
        (Some(op), Some(live)) => next_on_guest(alloc, domain, live, op, call, answers),
        _ => Ok(Next::Finish),
    }
}

/// What the due phase of an operation asks next, after these answers. There may be no memory for an ask,
/// and never for the end.
#[tactic(auto, using(crate::proofs::NothingLeft::nothing_left, core_rules::proofs::Answered::phase_plan_left))]
pub fn next_phase(
    alloc: Global,
    state: &State,
    operation: &OpenOperation,
    answers: &[Answer],
) -> Result<Next, NoMemory>
    requires save { Serves core.Save state.now operation.now }
    ensures asked { IfOk result (λ next. next ≡ next_of (phase_still_asked state.now operation.now answers.now)) }
    ensures memory { OnErr result (is_ask (next_of (phase_still_asked state.now operation.now answers.now)) ≡ true) }
{
    if carries_ended(state, operation.boot) {
        return Ok(Next::Finish);
    }
    match state {
        State::Vacant { .. } => Ok(Next::Finish),
        State::Held(domain) => next_on(alloc, domain, &operation.call, answers),
    }
}
