// What is read of a domain's cell.
ghost use Rattle.std.specs.Prelude.{◌≡◌, IfOk};
ghost use Rattle.domain_spec.specs.Reading.{boot_in, carries_ended, has_crashed, has_moved, id_of, is_boot_in, is_crashed, is_held_by_job, is_live, is_moved, is_paused, is_running, live_boot, reference_of, state_in, state_running};
ghost use Rattle.core_rules.specs.Ends.{has_operation};

use virt_types::{Cause, Domain, DomainRef, DomainState, Live, NoMemory, RunState, State, TryCopy};

/// The number of a guest's boot.
pub fn boot_in(live: &Option<Live>) -> Option<u64>
    ensures { result ≡ boot_in live.now }
{
    match live {
        None => None,
        Some(live) => Some(live.boot),
    }
}

/// The boot that is live.
pub fn live_boot(state: &State) -> Option<u64>
    ensures { result ≡ live_boot state.now }
{
    match state {
        State::Vacant { .. } => None,
        State::Held(domain) => boot_in(&domain.live),
    }
}

fn is_boot_in(live: &Option<Live>, boot: u64) -> bool
    ensures { result ≡ is_boot_in live.now boot }
{
    match live {
        None => false,
        Some(live) => live.boot == boot,
    }
}

/// Whether this boot is live.
pub fn is_live(state: &State, boot: u64) -> bool
    ensures { result ≡ is_live state.now boot }
{
    match state {
        State::Vacant { .. } => false,
        State::Held(domain) => is_boot_in(&domain.live, boot),
    }
}

/// Whether who carries this boot carries one that is not live.
pub fn carries_ended(state: &State, boot: Option<u64>) -> bool
    ensures { result ≡ carries_ended state.now boot }
{
    match boot {
        None => false,
        Some(boot) => !is_live(state, boot),
    }
}

/// Whether the domain has an operation.
pub fn has_operation(state: &State) -> bool
    ensures { result ≡ has_operation state.now }
{
    match state {
        State::Vacant { .. } => false,
        State::Held(domain) => domain.op.is_some(),
    }
}

/// Whether a guest runs.
pub fn is_running(run: RunState) -> bool
    ensures { result ≡ is_running run }
{
    matches!(run, RunState::Running)
}

/// Whether a guest is paused.
pub fn is_paused(run: RunState) -> bool
    ensures { result ≡ is_paused run }
{
    matches!(run, RunState::Paused(_))
}

/// Whether a guest stands still since an operation copies its state.
pub fn is_held_by_job(run: RunState) -> bool
    ensures { result ≡ is_held_by_job run }
{
    matches!(run, RunState::Paused(Cause::Job))
}

/// Whether a guest crashed.
pub fn is_crashed(run: RunState) -> bool
    ensures { result ≡ is_crashed run }
{
    matches!(run, RunState::Crashed)
}

/// Whether there is a guest that crashed.
pub fn has_crashed(live: &Option<Live>) -> bool
    ensures { result ≡ has_crashed live.now }
{
    match live {
        None => false,
        Some(live) => is_crashed(live.run),
    }
}

/// Whether a guest stands still between two hosts.
pub fn is_moved(run: RunState) -> bool
    ensures { result ≡ is_moved run }
{
    matches!(run, RunState::Paused(Cause::Moved))
}

/// Whether there is a guest, between two hosts.
pub fn has_moved(live: &Option<Live>) -> bool
    ensures { result ≡ has_moved live.now }
{
    match live {
        None => false,
        Some(live) => is_moved(live.run),
    }
}

fn state_running(run: RunState) -> DomainState
    ensures { result ≡ state_running run }
{
    match run {
        RunState::Running => DomainState::Running,
        RunState::Paused(_) => DomainState::Paused,
        RunState::Crashed => DomainState::Crashed,
    }
}

/// The state of a domain as the wire reports it.
pub fn state_in(live: &Option<Live>) -> DomainState
    ensures { result ≡ state_in live.now }
{
    match live {
        None => DomainState::ShutOff,
        Some(live) => state_running(live.run),
    }
}

/// The id of a domain on the wire.
pub fn id_of(live: &Option<Live>) -> i32
    ensures { result ≡ id_of live.now }
{
    match live {
        None => -1,
        Some(live) => live.boot.min(2_147_483_647) as i32,
    }
}

/// How replies name a domain. Its name is copied.
pub fn reference_of(domain: &Domain) -> Result<DomainRef, NoMemory>
    ensures { IfOk result (λ reference. reference ≡ reference_of domain.now) }
{
    Ok(DomainRef {
        name: domain.name.copy()?,
        uuid: domain.uuid,
        id: id_of(&domain.live),
    })
}
