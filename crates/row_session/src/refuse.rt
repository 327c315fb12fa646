// Refusals of calls that ask nothing, with what each keeps.
ghost use Rattle.std.specs.Prelude.{◌≡◌, ◌≤◌, IfOk, length};
ghost use Rattle.session_spec.specs.Refused.{at_place, not_served as why_not_served, place, refusal, unread as refusal_of};
ghost use Rattle.procedure_spec.specs.Calls.{is_known as is_known_row};
ghost use Rattle.procedure_spec.specs.Procedures.{row_of};
ghost use Rattle.virt_types.specs.Limits.{most_kept_bytes};

use packet::Header;
use remote_args::{ArgFault, is_known};
use std::alloc::Global;
use virt_types::{NoMemory, Refusal, RefusalCode};
use wire_spec::XdrFault;

/// The refusal of this code, which keeps a front of the text.
#[tactic(auto, using(crate::proofs::Fits::cut_short))]
fn refuse(alloc: Global, code: RefusalCode, kept: &str) -> Result<Refusal, NoMemory>
    ensures why { IfOk result (λ why. why ≡ refusal code kept.now) }
    ensures short { IfOk result (λ why. length why.kept ≤ most_kept_bytes) }
{
    Refusal::new(alloc, code, kept)
}

/// Where a payload is wrong.
fn place_of(fault: XdrFault) -> u64
    ensures { result ≡ place fault }
{
    match fault {
        XdrFault::Short { at }
        | XdrFault::Pad { at }
        | XdrFault::Flag { at }
        | XdrFault::TooLong { at, .. }
        | XdrFault::Extra { at }
        | XdrFault::Text { at } => at,
    }
}

/// The refusal of this code that keeps a place.
fn refuse_at(alloc: Global, code: RefusalCode, at: u64) -> Result<Refusal, NoMemory>
    ensures why { IfOk result (λ why. why ≡ refusal code (at_place at)) }
    ensures short { IfOk result (λ why. length why.kept ≤ most_kept_bytes) }
{
    let kept = format!(in alloc; "at {at}")?;
    refuse(alloc, code, kept.as_str())
}

/// Why a procedure is not served.
fn not_served(call: &Header) -> RefusalCode
    ensures { result ≡ why_not_served (is_known_row (row_of call.now.prog call.now.procedure)) }
{
    if is_known(call) {
        RefusalCode::NotBuilt
    } else {
        RefusalCode::UnknownProcedure
    }
}

fn refuse_procedure(alloc: Global, call: &Header) -> Result<Refusal, NoMemory>
    ensures why { IfOk result (λ why. why ≡ refusal_of call.now ArgFault.Procedure) }
    ensures short { IfOk result (λ why. length why.kept ≤ most_kept_bytes) }
{
    let number = call.procedure.to_string(alloc)?;
    refuse(alloc, not_served(call), number.as_str())
}

/// The refusal of a call that no request could be read from.
pub(crate) fn unread(alloc: Global, call: &Header, fault: ArgFault) -> Result<Refusal, NoMemory>
    ensures why { IfOk result (λ why. why ≡ refusal_of call.now fault) }
    ensures short { IfOk result (λ why. length why.kept ≤ most_kept_bytes) }
{
    match fault {
        ArgFault::Program => refuse(alloc, RefusalCode::MalformedCall, "program"),
        ArgFault::Version => refuse(alloc, RefusalCode::MalformedCall, "version"),
        ArgFault::Procedure => refuse_procedure(alloc, call),
        ArgFault::Xdr(bad) => refuse_at(alloc, RefusalCode::MalformedCall, place_of(bad)),
        ArgFault::Name { at } | ArgFault::Foreign { at } => {
            refuse_at(alloc, RefusalCode::MalformedCall, at)
        }
    }
}
