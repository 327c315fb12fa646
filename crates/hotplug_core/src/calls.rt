// Attaching and detaching a device, as each part of the driver has its calls.
ghost use Rattle.std.specs.Prelude.{◌≡◌, ◌++◌, IfOk, OnErr, true};
ghost use Rattle.core_rules.specs.Cores.{core_of_call};
ghost use Rattle.core_rules.specs.Next.{is_ask, next_of};
ghost use Rattle.core_rules.specs.declared.cores.Core.TheVariants as core;
ghost use Rattle.domain_spec.specs.Sequential.{seq, still_asked};
ghost use Rattle.hotplug_core.specs.Fitting.{Fits};
ghost use Rattle.hotplug_core.specs.Left.{Leaves};

use crate::attaching::{attach_end, attach_next};
use crate::detaching::{detach_end, detach_next};
use crate::set_aside::{Parts, for_attach, for_detach};
use core_rules::{CallEnd, Next};
use std::alloc::Global;
use virt_types::{Answer, Call, NoMemory, State, TransitionList};

/// What attaching or detaching a device asks next, after these answers.
pub fn next(
    alloc: Global,
    state: &State,
    call: &Call,
    boot: Option<u64>,
    answers: &[Answer],
) -> Result<Next, NoMemory>
    requires { core_of_call call.now ≡ core.Hotplug }
    ensures next { IfOk result (λ next. next ≡ next_of (still_asked state.now call.now boot answers.now)) }
    ensures memory { OnErr result (is_ask (next_of (still_asked state.now call.now boot answers.now)) ≡ true) }
{
    match call {
        Call::Attach(device) => attach_next(alloc, state, device.as_ref(), boot, answers),
        Call::Detach(device) => detach_next(alloc, state, device.as_ref(), boot, answers),
        _ => unreachable!(),
    }
}

/// What attaching or detaching a device needs from its first ask on. Running out of memory comes here or
/// in an ask, and not in what is done with the answers.
pub fn parts(alloc: Global, state: &State, call: &Call) -> Result<Parts, NoMemory>
    requires { core_of_call call.now ≡ core.Hotplug }
    ensures { IfOk result (λ parts. Fits parts state.now call.now) }
{
    match call {
        Call::Attach(device) => for_attach(alloc, state, device.as_ref()),
        Call::Detach(device) => for_detach(alloc, device.as_ref()),
        _ => unreachable!(),
    }
}

fn end(
    state: &mut State,
    call: &Call,
    boot: Option<u64>,
    answers: &[Answer],
    parts: Parts,
) -> CallEnd
    requires call { core_of_call call.now ≡ core.Hotplug }
    requires parts { Fits parts state.old call.now }
    ensures { Leaves (seq state.old call.now boot answers.now) state.new result }
{
    match call {
        Call::Attach(_) => match parts {
            Parts::Attach { new, texts } => attach_end(state, boot, answers, new, texts),
            Parts::Detach { .. } => unreachable!(),
        },
        Call::Detach(device) => match parts {
            Parts::Attach { .. } => unreachable!(),
            Parts::Detach { mac, texts } => {
                detach_end(state, device.as_ref(), boot, answers, &mac, texts)
            }
        },
        _ => unreachable!(),
    }
}

/// What attaching or detaching a device leaves after these answers. It takes no memory.
pub fn finish(
    state: &mut State,
    call: &Call,
    boot: Option<u64>,
    answers: &[Answer],
    parts: Parts,
    into: &mut TransitionList,
) -> CallEnd
    requires call { core_of_call call.now ≡ core.Hotplug }
    requires parts { Fits parts state.old call.now }
    ensures state { state.new ≡ (seq state.old call.now boot answers.now).state }
    ensures reply { result.reply ≡ (seq state.old call.now boot answers.now).reply }
    ensures in_mark { result.in_mark ≡ (seq state.old call.now boot answers.now).reply }
    ensures transitions { into.new.list ≡ into.old.list ++ (seq state.old call.now boot answers.now).transitions }
{
    end(state, call, boot, answers, parts)
}
