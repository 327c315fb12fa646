// The end of a boot, and what a guest does by itself (QEMU's events of the same names).
ghost use Rattle.std.specs.Prelude.{◌≡◌, ◌++◌, ◌<◌, ◌+◌};
ghost use Rattle.domain_spec.specs.Exit.{can_resume, event_live, event_state, event_told, event_transitions, exit_event, exit_state, exit_transitions, told_in};
ghost use Rattle.domain_spec.specs.Reading.{is_crashed, is_moved, is_paused, is_running};
ghost use Rattle.core_state.specs.Events.{followed, listed};
ghost use Rattle.domain_spec.specs.Types.guest;
ghost use Rattle.domain_spec.specs.Types.state;

use core_rules::{is_crashed, is_moved, is_paused, is_running};
use hotplug_core::without_slot;
use virt_types::{
    CRASHED_PANICKED, Cause, EndReason, GuestEvent, Live, RESUMED_UNPAUSED, RunState,
    SHUTDOWN_FINISHED, STOPPED_CRASHED, STOPPED_DESTROYED, STOPPED_FAILED, STOPPED_SHUTDOWN,
    SUSPENDED_PAUSED, State, Transition,
};

/// What listeners are told of a boot's end.
pub fn exit_event(why: EndReason) -> Transition
    ensures { result ≡ exit_event why }
{
    match why {
        EndReason::Shutdown => STOPPED_SHUTDOWN,
        EndReason::Killed => STOPPED_DESTROYED,
        EndReason::Crashed => STOPPED_CRASHED,
        _ => STOPPED_FAILED,
    }
}

fn can_resume(run: RunState) -> bool
    ensures { result ≡ can_resume run }
{
    is_paused(run) && !is_moved(run)
}

// What listeners are told of a guest's event, if anything.
fn event_told(live: &Live, event: GuestEvent) -> Option<Transition>
    ensures { listed result ≡ event_told live.now event }
{
    match event {
        GuestEvent::Shutdown => Some(SHUTDOWN_FINISHED),
        GuestEvent::Stop if is_running(live.run) => Some(SUSPENDED_PAUSED),
        GuestEvent::Resume if can_resume(live.run) => Some(RESUMED_UNPAUSED),
        GuestEvent::Panic if !is_crashed(live.run) => Some(CRASHED_PANICKED),
        _ => None,
    }
}

// The guest after its event.
fn follow(live: &mut Live, event: GuestEvent)
    ensures { live.new ≡ followed live.old event }
{
    match event {
        GuestEvent::Stop if is_running(live.run) => live.run = RunState::Paused(Cause::User),
        GuestEvent::Resume if can_resume(live.run) => live.run = RunState::Running,
        GuestEvent::Panic => live.run = RunState::Crashed,
        GuestEvent::DeviceDeleted(slot) => without_slot(live, slot),
        _ => (),
    }
}

/// A guest did this by itself. Answers what listeners are told of it, which is at most one
/// transition; without a guest nothing happens.
pub fn follow_event(state: &mut State, event: GuestEvent) -> Option<Transition>
    ensures state { state.new ≡ event_state state.old event }
    ensures told { listed result ≡ event_transitions state.old event }
{
    match state {
        State::Vacant { .. } => None,
        State::Held(domain) => match &mut domain.live {
            None => None,
            Some(live) => {
                let told = event_told(live, event);
                follow(live, event);
                told
            }
        },
    }
}
