// Why a call is refused before anything is asked.
ghost use Rattle.std.specs.Prelude.{◌≡◌, option_map};
ghost use Rattle.core_rules.specs.Checks.{test_of};
ghost use Rattle.core_rules.specs.Cores.{core_of_call};
ghost use Rattle.core_rules.specs.Reasons.{refusal_for};
ghost use Rattle.core_rules.specs.declared.cores.Core.TheVariants as core;
ghost use Rattle.domain_spec.specs.Migrating.{can_limit, is_before_take, is_same_kind, rests_as};
ghost use Rattle.domain_spec.specs.Tests.{can_abort, first_refusal, held_tests, is_abortable, none_resting, refusal_of, tests_of};
ghost use Rattle.domain_spec.specs.Types.state;

use core_rules::{
    Check, Reason, active, crashed, first_failing, inactive, invalid_if, outside, spent,
};
use virt_types::{Call, Domain, Op, OpKind, Phase, RefusalCode, State};

// The most that may be left of a copy when the guest is stopped.
const MOST_LEFT: u64 = 1 << 40;

fn is_abortable(kind: OpKind) -> bool
    ensures { result ≡ is_abortable kind }
{
    match kind {
        OpKind::Save | OpKind::Dump | OpKind::Snapshot | OpKind::MigrateOut => true,
        OpKind::Start | OpKind::Restore | OpKind::Revert | OpKind::MigrateIn => false,
    }
}

fn can_abort(op: &Option<Op>) -> bool
    ensures { result ≡ can_abort op.now }
{
    match op {
        None => false,
        Some(op) => is_abortable(op.kind) && !op.rests,
    }
}

fn is_before_take(kind: OpKind, phase: Phase) -> bool
    ensures { result ≡ is_before_take kind phase }
{
    match (kind, phase) {
        (OpKind::MigrateOut, Phase::MigrateCopy) => true,
        (OpKind::MigrateOut, Phase::Poll) => true,
        _ => false,
    }
}

fn can_limit(op: &Option<Op>) -> bool
    ensures { result ≡ can_limit op.now }
{
    match op {
        None => false,
        Some(op) => is_before_take(op.kind, op.phase),
    }
}

fn is_same_kind(one: OpKind, other: OpKind) -> bool
    ensures { result ≡ is_same_kind one other }
{
    one.number() == other.number()
}

fn rests_as(kind: OpKind, op: &Option<Op>) -> bool
    ensures { result ≡ rests_as kind op.now }
{
    match op {
        None => false,
        Some(op) => op.rests && is_same_kind(op.kind, kind),
    }
}

fn none_resting(domain: &Domain, kind: OpKind) -> Check
    ensures { test_of result ≡ none_resting domain.now kind }
{
    invalid_if(!rests_as(kind, &domain.op), &domain.live)
}

fn held_failing(domain: &Domain, boot: Option<u64>, call: &Call) -> Option<Reason>
    requires save { core_of_call call.now ≡ core.Save }
    ensures { option_map (λ r. refusal_for r) result ≡ first_refusal (held_tests domain.now boot call.now) }
{
    match call {
        Call::Save(_) => first_failing(&[inactive(domain), crashed(domain)]),
        Call::Perform => first_failing(&[inactive(domain), crashed(domain)]),
        Call::Dump(_) => first_failing(&[inactive(domain)]),
        Call::Restore { .. } => first_failing(&[active(domain), spent(domain.boots)]),
        Call::Prepare { .. } => first_failing(&[active(domain), spent(domain.boots)]),
        Call::Abort => first_failing(&[invalid_if(!can_abort(&domain.op), &domain.live)]),
        Call::Limit(rest) => first_failing(&[
            inactive(domain),
            invalid_if(!can_limit(&domain.op), &domain.live),
            outside(*rest, 0, MOST_LEFT),
        ]),
        Call::Confirm(_) => first_failing(&[none_resting(domain, OpKind::MigrateOut)]),
        Call::Finish(_) => first_failing(&[none_resting(domain, OpKind::MigrateIn)]),
        _ => unreachable!(),
    }
}

fn vacant_failing(boots: u64, boot: Option<u64>, call: &Call) -> Option<Reason>
    requires save { core_of_call call.now ≡ core.Save }
    ensures { option_map (λ r. refusal_for r) result ≡ first_refusal (tests_of (state.Vacant boots) boot call.now) }
{
    match call {
        Call::Restore { .. } => first_failing(&[spent(boots)]),
        Call::Prepare { .. } => first_failing(&[spent(boots)]),
        Call::Save(_)
        | Call::Perform
        | Call::Dump(_)
        | Call::Abort
        | Call::Limit(_)
        | Call::Confirm(_)
        | Call::Finish(_) => Some(Reason::Bare(RefusalCode::NoDomain)),
        _ => unreachable!(),
    }
}

/// Why a call is refused that carries this boot: for the first of its tests that fails.
pub fn failing(state: &State, boot: Option<u64>, call: &Call) -> Option<Reason>
    requires save { core_of_call call.now ≡ core.Save }
    ensures { option_map (λ r. refusal_for r) result ≡ refusal_of state.now boot call.now }
{
    match state {
        State::Held(domain) => held_failing(domain, boot, call),
        State::Vacant { boots } => vacant_failing(*boots, boot, call),
    }
}
