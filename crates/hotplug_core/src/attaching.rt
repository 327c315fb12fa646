// Attaching a device: what is next, and what is left at the end.
ghost use Rattle.std.specs.Prelude.{◌≡◌, IfOk, OnErr, true};
ghost use Rattle.core_rules.specs.Next.{is_ask, next_of};
ghost use Rattle.domain_spec.specs.Asks.{asks_left};
ghost use Rattle.domain_spec.specs.Call.{guest_plan};
ghost use Rattle.domain_spec.specs.Reading.{live_of};
ghost use Rattle.domain_spec.specs.Sequential.{seq, still_asked};
ghost use Rattle.domain_spec.specs.Types.call;
ghost use Rattle.hotplug_core.specs.Fitting.{HasRoomIn};
ghost use Rattle.hotplug_core.specs.Left.{Leaves, attached_in};

use crate::asks::next_to_attach;
use crate::changes::attach;
use crate::faults::attach_fault;
use crate::set_aside::NewDevice;
use crate::slots::free_slot;
use core_rules::{CallEnd, Next, Texts, failure_of, first_bad};
use std::alloc::Global;
use virt_types::{Answer, DeviceDef, Live, NoMemory, State};

fn attach_asks(
    alloc: Global,
    live: &Option<Live>,
    device: &DeviceDef,
    answers: &[Answer],
) -> Result<Next, NoMemory>
    ensures next { IfOk result (λ next. next ≡ next_of (asks_left (guest_plan live.now (call.Attach device.now)) answers.now)) }
    ensures memory { OnErr result (is_ask (next_of (asks_left (guest_plan live.now (call.Attach device.now)) answers.now)) ≡ true) }
{
    match live {
        None => Ok(Next::Finish),
        Some(live) => match free_slot(live.slots.as_slice()) {
            None => Ok(Next::Finish),
            Some(slot) => next_to_attach(alloc, device, slot, answers),
        },
    }
}

/// What is next after these answers, where this device is to be attached.
pub fn attach_next(
    alloc: Global,
    state: &State,
    device: &DeviceDef,
    boot: Option<u64>,
    answers: &[Answer],
) -> Result<Next, NoMemory>
    ensures next { IfOk result (λ next. next ≡ next_of (still_asked state.now (call.Attach device.now) boot answers.now)) }
    ensures memory { OnErr result (is_ask (next_of (still_asked state.now (call.Attach device.now) boot answers.now)) ≡ true) }
{
    match attach_fault(state, device, boot) {
        Some(_) => Ok(Next::Finish),
        None => match state {
            State::Vacant { .. } => Ok(Next::Finish),
            State::Held(domain) => attach_asks(alloc, &domain.live, device, answers),
        },
    }
}

fn attach_in(state: &mut State, new: NewDevice)
    requires { HasRoomIn new (live_of state.old) }
    ensures { state.new ≡ attached_in state.old new.device }
{
    match state {
        State::Vacant { .. } => {}
        State::Held(domain) => {
            if let Some(live) = &mut domain.live {
                attach(live, new)
            }
        }
    }
}

/// What attaching the new device leaves after these answers.
pub fn attach_end(
    state: &mut State,
    boot: Option<u64>,
    answers: &[Answer],
    new: NewDevice,
    texts: Texts,
) -> CallEnd
    requires { HasRoomIn new (live_of state.old) }
    ensures { Leaves (seq state.old (call.Attach new.device) boot answers.now) state.new result }
{
    match attach_fault(state, new.device.as_ref(), boot) {
        Some(reason) => {
            drop(new);
            texts.refused(reason)
        }
        None => match first_bad(answers) {
            Some(bad) => {
                drop(new);
                texts.refused(failure_of(bad))
            }
            None => {
                drop(texts);
                attach_in(state, new);
                CallEnd::done()
            }
        },
    }
}
