// What is read of a call.
ghost use Rattle.std.specs.Prelude.{◌≡◌};
ghost use Rattle.domain_spec.specs.Call.{begins, is_on_stored};
ghost use Rattle.domain_spec.specs.Sequential.{meets_ended};

use crate::reading::carries_ended;
use virt_types::{Call, OpKind, State};

/// The operation that a call begins.
pub fn operation_begun(call: &Call) -> Option<OpKind>
    ensures { result ≡ begins call.now }
{
    match call {
        Call::Start | Call::Create(_) => Some(OpKind::Start),
        Call::Restore { .. } => Some(OpKind::Restore),
        Call::Save(_) => Some(OpKind::Save),
        Call::Dump(_) => Some(OpKind::Dump),
        Call::Snapshot(_) => Some(OpKind::Snapshot),
        Call::Revert(_) => Some(OpKind::Revert),
        Call::Perform => Some(OpKind::MigrateOut),
        Call::Prepare { .. } => Some(OpKind::MigrateIn),
        _ => None,
    }
}

/// Whether a call is on the stored definition, and goes on where the boot that it carries has ended.
pub fn is_on_stored(call: &Call) -> bool
    ensures { result ≡ is_on_stored call.now }
{
    matches!(
        call,
        Call::Define(_) | Call::Undefine | Call::SetAutostart(_)
    )
}

/// Whether a call carries a boot that is not live, and is no call on the stored definition.
pub fn meets_ended(state: &State, call: &Call, boot: Option<u64>) -> bool
    ensures { result ≡ meets_ended state.now call.now boot }
{
    !is_on_stored(call) && carries_ended(state, boot)
}
