// The calls: what each asks next, and what it leaves.
ghost use Rattle.std.specs.Prelude.{◌≡◌, ◌++◌, ◌≤◌, IfOk, OnErr, false, true};
ghost use Rattle.domain_spec.specs.CallResult.{step_of};
ghost use Rattle.domain_spec.specs.Sequential.{seq, still_asked};
ghost use Rattle.core_rules.specs.Cores.{core_of_call};
ghost use Rattle.core_rules.specs.Led.{Says};
ghost use Rattle.core_rules.specs.Next.{is_ask, next_of};
ghost use Rattle.core_rules.specs.declared.cores.Core.TheVariants as core;
ghost use Rattle.lifecycle_core.specs.Leaves.{Leaves};
ghost use Rattle.lifecycle_core.specs.Parts.{Fits, is_define};

use crate::asks::next_asked;
use crate::failing::failing;
use crate::guest_steps::{destroy, reboot, resume, set_memory, set_vcpus, suspend, tell_memory};
use crate::memory::CallParts;
use crate::stored_steps::{define, set_autostart, undefine};
use core_rules::{CallEnd, Next, Texts, call_ended, failure_of, first_bad, meets_ended};
use std::alloc::Global;
use virt_types::{Answer, Call, NoMemory, State, TransitionList};

/// What is next for a call that carries this boot, after these answers. There may be no memory for
/// an ask, and never for the end.
pub fn next(
    alloc: Global,
    state: &State,
    call: &Call,
    boot: Option<u64>,
    answers: &[Answer],
) -> Result<Next, NoMemory>
    requires { core_of_call call.now ≡ core.Lifecycle }
    ensures value { IfOk result (λ next. next ≡ next_of (still_asked state.now call.now boot answers.now)) }
    ensures memory { OnErr result (is_ask (next_of (still_asked state.now call.now boot answers.now)) ≡ true) }
{
    if meets_ended(state, call, boot) || failing(state, boot, call).is_some() {
        return Ok(Next::Finish);
    }
    next_asked(alloc, state, call, answers)
}

// A call but Define, whose tests passed, where each answer is Ok.
fn plain_step(
    state: &mut State,
    call: &Call,
    answers: &[Answer],
    texts: Texts,
    into: &mut TransitionList,
) -> CallEnd
    requires call { core_of_call call.now ≡ core.Lifecycle }
    requires other { is_define call.now ≡ false }
    requires room { 1 ≤ into.old.room }
    ensures { Leaves state.new into.old.list into.new.list result (step_of state.old call.now answers.now) }
{
    match call {
        Call::Suspend => suspend(state, into),
        Call::Resume => resume(state, into),
        Call::Reboot => reboot(state, into),
        Call::Destroy => destroy(state, into),
        Call::SetMemory(kib) => set_memory(state, *kib, into),
        Call::SetVcpus(n) => set_vcpus(state, *n, into),
        Call::MemoryStats => tell_memory(state, answers, texts, into),
        Call::Undefine => undefine(state, into),
        Call::SetAutostart(on) => set_autostart(state, *on, into),
        _ => CallEnd::done(),
    }
}

// A call whose tests passed, where each answer is Ok.
fn step(
    state: &mut State,
    call: &Call,
    answers: &[Answer],
    parts: CallParts,
    into: &mut TransitionList,
) -> CallEnd
    requires call { core_of_call call.now ≡ core.Lifecycle }
    requires parts { Fits parts state.old call.now }
    requires room { 1 ≤ into.old.room }
    ensures { Leaves state.new into.old.list into.new.list result (step_of state.old call.now answers.now) }
{
    match call {
        Call::Define(def) => {
            let CallParts { texts, new, held } = parts;
            drop(texts);
            define(state, def.as_ref(), new, held, into)
        }
        _ => plain_step(state, call, answers, parts.into_texts(), into),
    }
}

/// What a call leaves that carries this boot, where these answers came. It takes no memory.
pub fn finish(
    state: &mut State,
    call: &Call,
    boot: Option<u64>,
    answers: &[Answer],
    parts: CallParts,
    into: &mut TransitionList,
) -> CallEnd
    requires call { core_of_call call.now ≡ core.Lifecycle }
    requires parts { Fits parts state.old call.now }
    requires room { 3 ≤ into.old.room }
    ensures state { state.new ≡ (seq state.old call.now boot answers.now).state }
    ensures reply { result.reply ≡ (seq state.old call.now boot answers.now).reply }
    ensures in_mark { result.in_mark ≡ (seq state.old call.now boot answers.now).reply }
    ensures transitions { into.new.list ≡ into.old.list ++ (seq state.old call.now boot answers.now).transitions }
{
    if meets_ended(state, call, boot) {
        return call_ended(state, call, boot, parts.into_texts());
    }
    match failing(state, boot, call) {
        Some(reason) => parts.into_texts().refused(reason),
        None => match first_bad(answers) {
            Some(bad) => parts.into_texts().refused(failure_of(bad)),
            None => step(state, call, answers, parts, into),
        },
    }
}
