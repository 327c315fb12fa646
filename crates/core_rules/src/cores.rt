// Which part of the driver serves a call, and a phase of an operation.
ghost use Rattle.std.specs.Prelude.{◌≡◌};
ghost use Rattle.core_rules.specs.Cores.{core_due, core_of_call, core_of_phase, core_of_take};

use virt_types::{Call, Phase, State};

/// A part of the driver. None knows another.
#[derive(Clone, Copy, Debug, PartialEq, Eq)]
pub enum Core {
    /// Starts, stops, definitions and settings.
    Lifecycle,
    /// Devices that come to a guest and leave it.
    Hotplug,
    /// Copies of a guest's state: saves, dumps, restores, migrations.
    Save,
    /// Snapshots.
    Snapshot,
}

/// The part that serves a call.
pub fn core_of_call(call: &Call) -> Core
    ensures { result ≡ core_of_call call.now }
{
    match call {
        Call::Attach(_) | Call::Detach(_) => Core::Hotplug,
        Call::Save(_)
        | Call::Dump(_)
        | Call::Restore { .. }
        | Call::Abort
        | Call::Perform
        | Call::Limit(_)
        | Call::Confirm(_)
        | Call::Prepare { .. }
        | Call::Finish(_) => Core::Save,
        Call::Snapshot(_) | Call::SnapDelete { .. } | Call::Revert(_) => Core::Snapshot,
        _ => Core::Lifecycle,
    }
}

fn core_of_take(call: &Call) -> Core
    ensures { result ≡ core_of_take call.now }
{
    match call {
        Call::Snapshot(_) => Core::Snapshot,
        _ => Core::Save,
    }
}

/// The part that serves this phase of the operation that this call began or took up.
pub fn core_of_phase(phase: Phase, call: &Call) -> Core
    ensures { result ≡ core_of_phase phase call.now }
{
    match phase {
        Phase::Make | Phase::Run => Core::Lifecycle,
        Phase::Take => core_of_take(call),
        Phase::Nothing => Core::Snapshot,
        _ => Core::Save,
    }
}

/// The part that serves the phase that is due in this state; where none is due, the one of
/// snapshots.
pub fn core_due(state: &State, call: &Call) -> Core
    ensures { result ≡ core_due state.now call.now }
{
    match state {
        State::Vacant { .. } => Core::Snapshot,
        State::Held(domain) => match &domain.op {
            None => Core::Snapshot,
            Some(op) => core_of_phase(op.phase, call),
        },
    }
}
