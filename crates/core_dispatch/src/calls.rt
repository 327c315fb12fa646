// The calls of all parts.
ghost use Rattle.std.specs.Prelude.{◌≡◌, ◌++◌, ◌≤◌, IfOk, OnErr, true};
ghost use Rattle.domain_spec.specs.Sequential.{seq, still_asked};
ghost use Rattle.core_rules.specs.Next.{is_ask, next_of};
ghost use Rattle.core_dispatch.specs.Fits.{FitsCall};

use core_rules::{CallEnd, Core, Next, Texts, core_of_call};
use std::alloc::Global;
use virt_types::{Answer, Call, NoMemory, State, TransitionList};

/// What a call needs once its answers are there, as the part that serves it has made it.
#[derive(Drop)]
pub enum CallParts {
    /// For a start, a stop, a definition or a setting.
    Lifecycle(lifecycle_core::CallParts),
    /// For a device.
    Hotplug(hotplug_core::Parts),
    /// For a copy of a guest's state.
    Save(save_core::Parts),
    /// For a snapshot.
    Snapshot(snapshot_core::Parts),
}

// Room for the texts of a refusal of a device, without the rest.
fn device_texts(parts: hotplug_core::Parts) -> Texts {
    match parts {
        hotplug_core::Parts::Attach { new, texts } => {
            drop(new);
            texts
        }
        hotplug_core::Parts::Detach { mac, texts } => {
            drop(mac);
            texts
        }
    }
}

// Room for the texts of a refusal of a snapshot, without the rest.
fn snapshot_texts(parts: snapshot_core::Parts) -> Texts {
    let snapshot_core::Parts { texts, deletion } = parts;
    drop(deletion);
    texts
}

impl CallParts {
    /// Room for the texts of a refusal, without the rest.
    pub fn into_texts(self) -> Texts {
        match self {
            CallParts::Lifecycle(parts) => parts.into_texts(),
            CallParts::Hotplug(parts) => device_texts(parts),
            CallParts::Save(parts) => parts.texts,
            CallParts::Snapshot(parts) => snapshot_texts(parts),
        }
    }
}

/// What is next for a call that carries this boot, after these answers. There may be no memory for an
/// ask, and never for the end.
pub fn next(
    alloc: Global,
    state: &State,
    call: &Call,
    boot: Option<u64>,
    answers: &[Answer],
) -> Result<Next, NoMemory>
    ensures asked { IfOk result (λ next. next ≡ next_of (still_asked state.now call.now boot answers.now)) }
    ensures memory { OnErr result (is_ask (next_of (still_asked state.now call.now boot answers.now)) ≡ true) }
{
    match core_of_call(call) {
        Core::Lifecycle => lifecycle_core::next(alloc, state, call, boot, answers),
        Core::Hotplug => hotplug_core::next(alloc, state, call, boot, answers),
        Core::Save => save_core::next(state, call, boot, answers),
        Core::Snapshot => snapshot_core::next(state, call, boot, answers),
    }
}

/// All that a call needs of memory once its answers are there. It is made before the call's first ask.
pub fn parts(
    alloc: Global,
    state: &State,
    call: &Call,
    boot: Option<u64>,
) -> Result<CallParts, NoMemory>
    ensures { IfOk result (λ parts. FitsCall parts state.now call.now boot) }
{
    match core_of_call(call) {
        Core::Lifecycle => Ok(CallParts::Lifecycle(lifecycle_core::parts(alloc, state, call)?)),
        Core::Hotplug => Ok(CallParts::Hotplug(hotplug_core::parts(alloc, state, call)?)),
        Core::Save => Ok(CallParts::Save(save_core::parts(alloc, state, call)?)),
        Core::Snapshot => Ok(CallParts::Snapshot(snapshot_core::parts(alloc, state, call)?)),
    }
}

/// What a call leaves that carries this boot, where these answers came. It takes no memory.
pub fn finish(
    state: &mut State,
    call: &Call,
    boot: Option<u64>,
    answers: &[Answer],
    parts: CallParts,
    into: &mut TransitionList,
) -> CallEnd
    requires parts { FitsCall parts state.old call.now boot }
    requires room { 3 ≤ into.old.room }
    ensures state { state.new ≡ (seq state.old call.now boot answers.now).state }
    ensures reply { result.reply ≡ (seq state.old call.now boot answers.now).reply }
    ensures in_mark { result.in_mark ≡ (seq state.old call.now boot answers.now).reply }
    ensures transitions { into.new.list ≡ into.old.list ++ (seq state.old call.now boot answers.now).transitions }
{
    match parts {
        CallParts::Lifecycle(parts) => {
            lifecycle_core::finish(state, call, boot, answers, parts, into)
        }
        CallParts::Hotplug(parts) => {
            hotplug_core::finish(state, call, boot, answers, parts, into)
        }
        CallParts::Save(parts) => save_core::finish(state, call, boot, answers, parts, into),
        CallParts::Snapshot(parts) => {
            snapshot_core::finish(state, call, boot, answers, parts, into)
        }
    }
}
