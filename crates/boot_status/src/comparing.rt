// Whether a change left a boot's status as it was.
ghost use Rattle.std.specs.Prelude.{◌≡◌, ◌↔◌, IsTrue};

use types_eq::Same;
use virt_types::Status;

fn is_same(one: &Status, other: &Status) -> bool
    ensures { IsTrue result ↔ (one.now ≡ other.now) }
{
    one.uuid == other.uuid
        && one.name.same(&other.name)
        && one.boot == other.boot
        && one.state == other.state
        && one.op.same(&other.op)
        && one.phase == other.phase
}

/// Whether the same boot is reported, if one is: of the same domain, and in the same state, operation and phase.
pub fn same_status(one: &Option<Status>, other: &Option<Status>) -> bool
    ensures { IsTrue result ↔ (one.now ≡ other.now) }
{
    match (one, other) {
        (None, None) => true,
        (Some(one), Some(other)) => is_same(one, other),
        _ => false,
    }
}
