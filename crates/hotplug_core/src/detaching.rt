// Detaching a device: what is next, and what is left at the end.
ghost use Rattle.std.specs.Prelude.{◌≡◌, IfOk, OnErr, true};
ghost use Rattle.core_rules.specs.Led.{Says};
ghost use Rattle.core_rules.specs.Next.{is_ask, next_of};
ghost use Rattle.domain_spec.specs.Asks.{asks_left};
ghost use Rattle.domain_spec.specs.Call.{guest_plan};
ghost use Rattle.domain_spec.specs.Devices.{key_of};
ghost use Rattle.domain_spec.specs.Sequential.{seq, still_asked};
ghost use Rattle.domain_spec.specs.Types.call;
ghost use Rattle.domain_spec.specs.Types.reply;
ghost use Rattle.hotplug_core.specs.Faults.{fault_refusal};
ghost use Rattle.hotplug_core.specs.Fitting.{mac_of};
ghost use Rattle.hotplug_core.specs.Left.{Leaves, detached_in};

use crate::asks::next_to_detach;
use crate::changes::detach;
use crate::faults::{Fault, detach_fault};
use core_rules::{CallEnd, Next, Texts, failure_of, first_bad};
use std::alloc::Global;
use virt_types::{Answer, DeviceDef, Live, NoMemory, RefusalCode, State, Text};

fn detach_asks(
    alloc: Global,
    live: &Option<Live>,
    device: &DeviceDef,
    answers: &[Answer],
) -> Result<Next, NoMemory>
    ensures next { IfOk result (λ next. next ≡ next_of (asks_left (guest_plan live.now (call.Detach device.now)) answers.now)) }
    ensures memory { OnErr result (is_ask (next_of (asks_left (guest_plan live.now (call.Detach device.now)) answers.now)) ≡ true) }
{
    match live {
        None => Ok(Next::Finish),
        Some(live) => next_to_detach(alloc, live, device, answers),
    }
}

/// What is next after these answers, where the device with the key of this one is to be detached.
pub fn detach_next(
    alloc: Global,
    state: &State,
    device: &DeviceDef,
    boot: Option<u64>,
    answers: &[Answer],
) -> Result<Next, NoMemory>
    ensures next { IfOk result (λ next. next ≡ next_of (still_asked state.now (call.Detach device.now) boot answers.now)) }
    ensures memory { OnErr result (is_ask (next_of (still_asked state.now (call.Detach device.now) boot answers.now)) ≡ true) }
{
    match detach_fault(state, device, boot) {
        Some(_) => Ok(Next::Finish),
        None => match state {
            State::Vacant { .. } => Ok(Next::Finish),
            State::Held(domain) => detach_asks(alloc, &domain.live, device, answers),
        },
    }
}

fn detach_in(state: &mut State, device: &DeviceDef)
    ensures { state.new ≡ detached_in state.old device.now }
{
    match state {
        State::Vacant { .. } => {}
        State::Held(domain) => {
            if let Some(live) = &mut domain.live {
                detach(live, device)
            }
        }
    }
}

// A disk's target or an interface's MAC.
fn key_of<'a>(device: &'a DeviceDef, mac: &'a Text) -> &'a str
    requires { mac.now ≡ mac_of device.now }
    ensures { result.now ≡ key_of device.now }
{
    match device {
        DeviceDef::Disk(disk) => disk.target.dev.as_str(),
        DeviceDef::Interface(_) => mac.as_str(),
    }
}

fn refused_for(fault: Fault, device: &DeviceDef, mac: &Text, texts: Texts) -> CallEnd
    requires { mac.now ≡ mac_of device.now }
    ensures { Says result (reply.No (fault_refusal device.now fault)) }
{
    match fault {
        Fault::For(reason) => texts.refused(reason),
        Fault::NoDevice => texts.refused_cut(RefusalCode::InvalidArgument, key_of(device, mac)),
    }
}

/// What detaching the device with the key of this one leaves after these answers.
pub fn detach_end(
    state: &mut State,
    device: &DeviceDef,
    boot: Option<u64>,
    answers: &[Answer],
    mac: &Text,
    texts: Texts,
) -> CallEnd
    requires { mac.now ≡ mac_of device.now }
    ensures { Leaves (seq state.old (call.Detach device.now) boot answers.now) state.new result }
{
    match detach_fault(state, device, boot) {
        Some(fault) => refused_for(fault, device, mac, texts),
        None => match first_bad(answers) {
            Some(bad) => texts.refused(failure_of(bad)),
            None => {
                drop(texts);
                detach_in(state, device);
                CallEnd::done()
            }
        },
    }
}
