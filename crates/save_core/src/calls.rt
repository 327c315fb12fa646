// The calls: they ask nothing, and two of them steer the operation that is under way.
ghost use Rattle.std.specs.Prelude.{◌≡◌, ◌++◌, [], IfOk, IsOk, List};
ghost use Rattle.core_rules.specs.Cores.{core_of_call};
ghost use Rattle.core_rules.specs.Led.{Says};
ghost use Rattle.core_rules.specs.Next.{next_of};
ghost use Rattle.core_rules.specs.declared.cores.Core.TheVariants as core;
ghost use Rattle.domain_spec.specs.CallResult.{abort_asked, limit_set, step_of};
ghost use Rattle.domain_spec.specs.Sequential.{seq, still_asked};
ghost use Rattle.domain_spec.specs.Types.{Answer as TheAnswer};
ghost use Rattle.domain_spec.specs.Types.state;

use crate::call_parts::Parts;
use crate::call_refusals::failing;
use core_rules::{CallEnd, Next, Texts, call_ended, failure_of, first_bad, meets_ended};
use std::alloc::Global;
use virt_types::{Answer, Call, Domain, NoMemory, State, TransitionList};

/// What a call asks next, after these answers: it asks nothing.
#[tactic(auto, using(crate::proofs::CallLaws::nothing_asked))]
pub fn next(
    state: &State,
    call: &Call,
    boot: Option<u64>,
    answers: &[Answer],
) -> Result<Next, NoMemory>
    requires { core_of_call call.now ≡ core.Save }
    ensures asked { IfOk result (λ next. next ≡ next_of (still_asked state.now call.now boot answers.now)) }
    ensures succeeds { IsOk result }
{
    Ok(Next::Finish)
}

/// What a call needs.
pub fn parts(alloc: Global, state: &State, call: &Call) -> Result<Parts, NoMemory>
    requires { core_of_call call.now ≡ core.Save }
{
    Ok(Parts {
        texts: Texts::new(alloc)?,
    })
}

fn abort(domain: &mut Domain)
    ensures { state.Held domain.new ≡ (abort_asked domain.old).state }
{
    if let Some(op) = &mut domain.op {
        op.abort = true;
    }
}

fn limit(domain: &mut Domain, rest: u64)
    ensures { state.Held domain.new ≡ (limit_set domain.old rest).state }
{
    if let Some(op) = &mut domain.op {
        op.limit = rest;
    }
}

// A call whose tests passed.
fn step(state: &mut State, call: &Call)
    requires { core_of_call call.now ≡ core.Save }
    ensures { (answers : List TheAnswer) → state.new ≡ (step_of state.old call.now answers).state }
{
    match state {
        State::Vacant { .. } => {}
        State::Held(domain) => match call {
            Call::Abort => abort(domain),
            Call::Limit(rest) => limit(domain, *rest),
            _ => {}
        },
    }
}

fn end(
    state: &mut State,
    call: &Call,
    boot: Option<u64>,
    answers: &[Answer],
    texts: Texts,
) -> CallEnd
    requires { core_of_call call.now ≡ core.Save }
    ensures state { state.new ≡ (seq state.old call.now boot answers.now).state }
    ensures end { Says result (seq state.old call.now boot answers.now).reply }
    ensures transitions { (seq state.old call.now boot answers.now).transitions ≡ [] }
{
    if meets_ended(state, call, boot) {
        return call_ended(state, call, boot, texts);
    }
    match failing(state, boot, call) {
        Some(reason) => texts.refused(reason),
        None => match first_bad(answers) {
            Some(bad) => texts.refused(failure_of(bad)),
            None => {
                drop(texts);
                step(state, call);
                CallEnd::done()
            }
        },
    }
}

/// What a call leaves after these answers. It takes no memory, and listeners are told nothing.
pub fn finish(
    state: &mut State,
    call: &Call,
    boot: Option<u64>,
    answers: &[Answer],
    parts: Parts,
    into: &mut TransitionList,
) -> CallEnd
    requires { core_of_call call.now ≡ core.Save }
    ensures state { state.new ≡ (seq state.old call.now boot answers.now).state }
    ensures reply { result.reply ≡ (seq state.old call.now boot answers.now).reply }
    ensures in_mark { result.in_mark ≡ (seq state.old call.now boot answers.now).reply }
    ensures transitions { into.new.list ≡ into.old.list ++ (seq state.old call.now boot answers.now).transitions }
{
    end(state, call, boot, answers, parts.texts)
}
