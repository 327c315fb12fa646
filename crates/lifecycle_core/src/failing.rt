// The tests of each call, in their order.
ghost use Rattle.std.specs.Prelude.{◌≡◌, option_map};
ghost use Rattle.domain_spec.specs.Tests.{bad_number, has_snapshots, held_tests, live_memory, live_tests, live_vcpus, refusal_of, tests_of, first_refusal};
ghost use Rattle.domain_spec.specs.Types.state;
ghost use Rattle.core_rules.specs.Checks.{test_of};
ghost use Rattle.core_rules.specs.Cores.{core_of_call};
ghost use Rattle.core_rules.specs.Reasons.{refusal_for};
ghost use Rattle.core_rules.specs.declared.cores.Core.TheVariants as core;

use core_rules::{
    Check, Reason, active, crashed, first_failing, inactive, invalid_if, moved, none_stored,
    outside, spent,
};
use virt_types::{Call, Domain, Live, RefusalCode, State};

fn live_memory(live: &Option<Live>) -> u64
    ensures { result ≡ live_memory live.now }
{
    match live {
        None => 0,
        Some(live) => live.def.memory,
    }
}

fn live_vcpus(live: &Option<Live>) -> u32
    ensures { result ≡ live_vcpus live.now }
{
    match live {
        None => 0,
        Some(live) => live.def.vcpus,
    }
}

fn bad_number(n: i32) -> Check
    ensures { test_of result ≡ bad_number n }
{
    Check {
        fails: n < 1 || 5 < n,
        reason: Reason::BadKick { n, is_low: n < 1 },
    }
}

fn has_snapshots(domain: &Domain, boot: Option<u64>) -> Check
    ensures { test_of result ≡ has_snapshots domain.now boot }
{
    invalid_if(boot.is_none() && 0 < domain.snaps.len(), &domain.live)
}

fn held_failing(domain: &Domain, boot: Option<u64>, call: &Call) -> Option<Reason>
    requires { core_of_call call.now ≡ core.Lifecycle }
    ensures { option_map (λ r. refusal_for r) result ≡ first_refusal (held_tests domain.now boot call.now) }
{
    match call {
        Call::Start => first_failing(&[active(domain), spent(domain.boots)]),
        Call::Create(_) => first_failing(&[invalid_if(true, &domain.live)]),
        Call::Define(_) => None,
        Call::Destroy => first_failing(&[invalid_if(boot.is_none(), &domain.live)]),
        Call::Undefine => first_failing(&[none_stored(domain), has_snapshots(domain, boot)]),
        Call::SetAutostart(_) => first_failing(&[none_stored(domain)]),
        Call::SetMemory(kib) => first_failing(&[
            inactive(domain),
            outside(*kib, 1, live_memory(&domain.live)),
        ]),
        Call::SetVcpus(n) => first_failing(&[
            inactive(domain),
            outside(u64::from(*n), 1, u64::from(live_vcpus(&domain.live))),
        ]),
        Call::Kick(n) => first_failing(&[bad_number(*n), inactive(domain)]),
        Call::Reboot | Call::MemoryStats => first_failing(&[inactive(domain)]),
        Call::Suspend => first_failing(&[inactive(domain), crashed(domain), moved(domain)]),
        _ => first_failing(&[inactive(domain), crashed(domain)]),
    }
}

/// Why a call is refused before anything is asked, if it is.
pub fn failing(state: &State, boot: Option<u64>, call: &Call) -> Option<Reason>
    requires { core_of_call call.now ≡ core.Lifecycle }
    ensures { option_map (λ r. refusal_for r) result ≡ refusal_of state.now boot call.now }
{
    match state {
        State::Vacant { boots } => match call {
            Call::Define(_) => None,
            Call::Create(_) => first_failing(&[spent(*boots)]),
            _ => Some(Reason::Bare(RefusalCode::NoDomain)),
        },
        State::Held(domain) => held_failing(domain, boot, call),
    }
}
