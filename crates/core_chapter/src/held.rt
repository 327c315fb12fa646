// What is held for a domain: the normal job, and the operation.
ghost use Rattle.std.specs.Prelude.{◌≡◌, ◌&&◌};
ghost use Rattle.domain_spec.specs.Call.{kind_of_call, takes_up};
ghost use Rattle.domain_spec.specs.Migrating.{is_same_kind};
ghost use Rattle.domain_spec.specs.Open.{is_rest, job_held, kind_begun, operation_held};
ghost use Rattle.domain_spec.specs.TakeUp.{is_vacant, rests_for_another};

use crate::open::{LetIn, Underway};
use core_rules::operation_begun;
use domain_spec::{HeldOperation, Outcome};
use virt_types::{Call, Job, OpKind, State, Who};

/// The kind of operation that a call takes up where one rests.
pub fn takes_up(call: &Call) -> Option<OpKind>
    ensures { result ≡ takes_up call.now }
{
    match call {
        Call::Confirm(_) => Some(OpKind::MigrateOut),
        Call::Finish(_) => Some(OpKind::MigrateIn),
        _ => None,
    }
}

// The kind of operation that a call begins or takes up.
fn kind_of_call(call: &Call) -> Option<OpKind>
    ensures { result ≡ kind_of_call call.now }
{
    match call {
        Call::Confirm(_) => Some(OpKind::MigrateOut),
        Call::Finish(_) => Some(OpKind::MigrateIn),
        _ => operation_begun(call),
    }
}

fn kind_begun(kind: Option<OpKind>) -> OpKind
    ensures { result ≡ kind_begun kind }
{
    match kind {
        None => OpKind::Start,
        Some(kind) => kind,
    }
}

fn is_rest(outcome: &Outcome) -> bool
    ensures { result ≡ is_rest outcome.now }
{
    matches!(outcome, Outcome::Rest(_))
}

/// The normal job that is open, and whose it is.
pub fn job_held(job: &Option<LetIn>) -> Option<(Job, Who)>
    ensures { result ≡ job_held job.now }
{
    match job {
        None => None,
        Some(job) => Some((job.job(), job.who())),
    }
}

/// The operation that is open, whose it is, and whether it rests.
pub fn operation_held(operation: &Option<Underway>) -> Option<HeldOperation>
    ensures { result ≡ operation_held operation.now }
{
    match operation {
        None => None,
        Some(operation) => Some(HeldOperation {
            kind: kind_begun(kind_of_call(operation.call())),
            who: operation.who(),
            rests: is_rest(operation.outcome()),
        }),
    }
}

fn is_same_kind(one: OpKind, other: OpKind) -> bool
    ensures { result ≡ is_same_kind one other }
{
    one.number() == other.number()
}

fn rests_for_another(wanted: Option<OpKind>, held: Option<HeldOperation>) -> bool
    ensures { result ≡ rests_for_another wanted held }
{
    match (wanted, held) {
        (Some(kind), Some(held)) => held.rests && !is_same_kind(held.kind, kind),
        _ => false,
    }
}

fn is_vacant(state: &State) -> bool
    ensures { result ≡ is_vacant state.now }
{
    matches!(state, State::Vacant { .. })
}

/// Whether a vacant cell has an operation that rests, of another kind than the call takes up.
pub fn meets_another(state: &State, operation: &Option<Underway>, call: &Call) -> bool
    ensures { result ≡ (is_vacant state.now && rests_for_another (takes_up call.now) (operation_held operation.now)) }
{
    is_vacant(state) && rests_for_another(takes_up(call), operation_held(operation))
}
