// What the calls on a guest leave whose answers are all Ok.
ghost use Rattle.std.specs.Prelude.{◌≡◌, ◌≤◌, List, Option, option_map};
ghost use Rattle.domain_spec.specs.CallResult.{memory_step, step_of};
ghost use Rattle.domain_spec.specs.Types.call;
ghost use Rattle.domain_spec.specs.Types.{Answer as TheAnswer, AnswerValue as TheValue, State as TheState, Transition as TheTransition};
ghost use Rattle.lifecycle_core.specs.Leaves.{Leaves};

use crate::told::tell_listeners;
use core_rules::{
    CallEnd, Reason, Texts, end_guest, first_value, is_crashed, is_paused, is_running,
};
use virt_types::{
    Answer, AnswerValue, Cause, EndReason, RESUMED_UNPAUSED, Reply, RunState, STOPPED_DESTROYED,
    SUSPENDED_PAUSED, State, TransitionList, Value,
};

/// The guest is paused by its user.
pub fn suspend(state: &mut State, into: &mut TransitionList) -> CallEnd
    requires { 1 ≤ into.old.room }
    ensures { (answers : List TheAnswer) → Leaves state.new into.old.list into.new.list result (step_of state.old call.Suspend answers) }
{
    match state {
        State::Vacant { .. } => CallEnd::done(),
        State::Held(domain) => match &mut domain.live {
            None => CallEnd::done(),
            Some(live) => {
                tell_listeners(is_running(live.run), SUSPENDED_PAUSED, into);
                live.run = RunState::Paused(Cause::User);
                CallEnd::done()
            }
        },
    }
}

/// The guest runs.
pub fn resume(state: &mut State, into: &mut TransitionList) -> CallEnd
    requires { 1 ≤ into.old.room }
    ensures { (answers : List TheAnswer) → Leaves state.new into.old.list into.new.list result (step_of state.old call.Resume answers) }
{
    match state {
        State::Vacant { .. } => CallEnd::done(),
        State::Held(domain) => match &mut domain.live {
            None => CallEnd::done(),
            Some(live) => {
                tell_listeners(is_paused(live.run), RESUMED_UNPAUSED, into);
                live.run = RunState::Running;
                CallEnd::done()
            }
        },
    }
}

/// A guest that crashed runs again.
pub fn reboot(state: &mut State, into: &mut TransitionList) -> CallEnd
    requires { 1 ≤ into.old.room }
    ensures { (answers : List TheAnswer) → Leaves state.new into.old.list into.new.list result (step_of state.old call.Reboot answers) }
{
    match state {
        State::Vacant { .. } => CallEnd::done(),
        State::Held(domain) => match &mut domain.live {
            None => CallEnd::done(),
            Some(live) => {
                if is_crashed(live.run) {
                    live.run = RunState::Running;
                    into.push(RESUMED_UNPAUSED);
                    CallEnd::done()
                } else {
                    CallEnd::done()
                }
            }
        },
    }
}

/// The guest has so many KiB.
pub fn set_memory(state: &mut State, kib: u64, into: &mut TransitionList) -> CallEnd
    ensures { (answers : List TheAnswer) → Leaves state.new into.old.list into.new.list result (step_of state.old (call.SetMemory kib) answers) }
{
    match state {
        State::Vacant { .. } => CallEnd::done(),
        State::Held(domain) => match &mut domain.live {
            None => CallEnd::done(),
            Some(live) => {
                live.def.current_memory = kib;
                CallEnd::done()
            }
        },
    }
}

/// The guest has so many processors.
pub fn set_vcpus(state: &mut State, n: u32, into: &mut TransitionList) -> CallEnd
    ensures { (answers : List TheAnswer) → Leaves state.new into.old.list into.new.list result (step_of state.old (call.SetVcpus n) answers) }
{
    match state {
        State::Vacant { .. } => CallEnd::done(),
        State::Held(domain) => match &mut domain.live {
            None => CallEnd::done(),
            Some(live) => {
                live.def.current_vcpus = n;
                CallEnd::done()
            }
        },
    }
}

/// The guest is ended at once; a domain without a stored definition is gone then.
pub fn destroy(state: &mut State, into: &mut TransitionList) -> CallEnd
    requires { 1 ≤ into.old.room }
    ensures { (answers : List TheAnswer) → Leaves state.new into.old.list into.new.list result (step_of state.old call.Destroy answers) }
{
    match state {
        State::Vacant { .. } => CallEnd::done(),
        State::Held(domain) => match &domain.live {
            None => CallEnd::done(),
            Some(_) => {
                into.push(STOPPED_DESTROYED);
                end_guest(state, EndReason::Killed);
                CallEnd::done()
            }
        },
    }
}

// A number of KiB is told; without a number the call failed.
fn memory_told(value: Option<&AnswerValue>, texts: Texts) -> CallEnd
    ensures { (s : TheState) (told : List TheTransition) (v : Option TheValue) → option_map (λ v. v.now) value.entry ≡ v → Leaves s told told result (memory_step s v) }
{
    match value {
        Some(AnswerValue::Number(kib)) => CallEnd {
            reply: Reply::Ok(Value::Memory(*kib)),
            in_mark: Reply::Ok(Value::Memory(*kib)),
        },
        _ => texts.refused(Reason::Failed(0)),
    }
}

/// The guest's number of KiB is told, as it answered; without a number the call failed. Nothing
/// changes.
pub fn tell_memory(
    state: &mut State,
    answers: &[Answer],
    texts: Texts,
    into: &mut TransitionList,
) -> CallEnd
    ensures { Leaves state.new into.old.list into.new.list result (step_of state.old call.MemoryStats answers.now) }
{
    match state {
        State::Vacant { .. } => CallEnd::done(),
        State::Held(domain) => match &domain.live {
            None => CallEnd::done(),
            Some(_) => memory_told(first_value(answers), texts),
        },
    }
}
