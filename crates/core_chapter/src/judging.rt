// Which calls go on as operations: those that begin one, and whose tests pass.
ghost use Rattle.std.specs.Prelude.{◌≡◌, ◌∷◌, [], is_none, is_some, true};
ghost use Rattle.domain_spec.specs.Call.{begins};
ghost use Rattle.domain_spec.specs.Sequential.{goes_on_as_operation};
ghost use Rattle.domain_spec.specs.Tests.{crashed, first_refusal, name_there, operation_tests, refusal_of, snapshots_full, tests_of};
ghost use Rattle.domain_spec.specs.Types.call;
ghost use Rattle.domain_spec.specs.Types.state;

use core_rules::{has_crashed, meets_ended, operation_begun};
use virt_types::{Call, Domain, Name, SnapInfo, State};

// How many snapshots a domain may have.
const MOST: usize = 64;

// How many boots can be numbered.
const MOST_BOOTS: u64 = 1 << 62;

fn name_passes(domain: &Domain, name: &Option<Name>) -> bool
    ensures { result ≡ is_none (first_refusal (name_there domain.now name.now ∷ [])) }
{
    match name {
        None => true,
        Some(name) => match domain.snaps.find(name) {
            None => true,
            Some(_) => false,
        },
    }
}

fn room_passes(domain: &Domain) -> bool
    ensures { result ≡ is_none (first_refusal (snapshots_full domain.now ∷ crashed domain.now ∷ [])) }
{
    if domain.snaps.len() >= MOST {
        return false;
    }
    !has_crashed(&domain.live)
}

fn snapshot_passes(domain: &Domain, info: &SnapInfo) -> bool
    ensures { result ≡ is_none (first_refusal (operation_tests domain.now (call.Snapshot info.now))) }
{
    if name_passes(domain, &info.name) {
        room_passes(domain)
    } else {
        false
    }
}

fn revert_passes(domain: &Domain, name: &Name) -> bool
    ensures { result ≡ is_none (first_refusal (operation_tests domain.now (call.Revert name.now))) }
{
    match domain.snaps.find(name) {
        None => false,
        Some(snap) => {
            if domain.live.is_none() && snap.run.is_some() && domain.boots >= MOST_BOOTS {
                false
            } else {
                true
            }
        }
    }
}

// A call that makes a boot needs an inactive domain, and a number for it.
fn boot_passes(domain: &Domain) -> bool
    ensures { result ≡ is_none (first_refusal (operation_tests domain.now call.Start)) }
{
    if domain.live.is_some() {
        return false;
    }
    domain.boots < MOST_BOOTS
}

fn guest_passes(domain: &Domain) -> bool
    ensures { result ≡ is_none (first_refusal (operation_tests domain.now call.Perform)) }
{
    if domain.live.is_none() {
        return false;
    }
    !has_crashed(&domain.live)
}

fn held_passes(domain: &Domain, call: &Call) -> bool
    requires { is_some (begins call.now) ≡ true }
    ensures { result ≡ is_none (first_refusal (operation_tests domain.now call.now)) }
{
    match call {
        Call::Start | Call::Restore { .. } | Call::Prepare { .. } => boot_passes(domain),
        Call::Create(_) => false,
        Call::Save(_) | Call::Perform => guest_passes(domain),
        Call::Dump(_) => domain.live.is_some(),
        Call::Snapshot(info) => snapshot_passes(domain, info.as_ref()),
        Call::Revert(name) => revert_passes(domain, name),
        _ => unreachable!(),
    }
}

fn vacant_passes(boots: u64, _boot: Option<u64>, call: &Call) -> bool
    requires { is_some (begins call.now) ≡ true }
    ensures { result ≡ is_none (first_refusal (tests_of (state.Vacant boots) _boot call.now)) }
{
    match call {
        Call::Create(_) | Call::Restore { .. } | Call::Prepare { .. } => boots < MOST_BOOTS,
        _ => false,
    }
}

fn passes(state: &State, boot: Option<u64>, call: &Call) -> bool
    requires { is_some (begins call.now) ≡ true }
    ensures { result ≡ is_none (refusal_of state.now boot call.now) }
{
    match state {
        State::Vacant { boots } => vacant_passes(*boots, boot, call),
        State::Held(domain) => held_passes(domain, call),
    }
}

/// Whether a call that carries this boot goes on as an operation: it begins one, its boot is live, and
/// its tests pass. Where it begins one and does not go on, it is done with its refusal.
pub fn goes_on(state: &State, call: &Call, boot: Option<u64>) -> bool
    ensures { result ≡ goes_on_as_operation state.now call.now boot }
{
    if operation_begun(call).is_none() || meets_ended(state, call, boot) {
        return false;
    }
    passes(state, boot, call)
}
