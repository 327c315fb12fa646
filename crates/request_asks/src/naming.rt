// The name that a text is.
ghost use Rattle.std.specs.Prelude.{◌≡◌, IfErr, IfOk, None, OnOk};
ghost use Rattle.virt_types.specs.Name.{bad_place};
ghost use Rattle.outcome_spec.specs.Below.domain_requests.Requests.{IsUnnamed};

use crate::refusing::refuse;
use std::alloc::Global;
use virt_types::{Name, OrNoMemory, Refusal, RefusalCode, Text};

/// The name that a text is. Another text is refused.
#[tactic(auto, using(crate::proofs::OfRequests::unnamed))]
pub(crate) fn name_of(alloc: Global, text: &Text) -> Result<Name, OrNoMemory<Refusal>>
    ensures value { IfOk result (λ name. name ≡ text.now) }
    ensures good { OnOk result (bad_place text.now ≡ None) }
    ensures bad { IfErr result (IsUnnamed text.now) }
{
    match Name::read(alloc, text.as_bytes()) {
        Ok(name) => Ok(name),
        Err(OrNoMemory::Fault(_)) => {
            Err(refuse(alloc, RefusalCode::InvalidArgument, text.as_str()))
        }
        Err(OrNoMemory::NoMemory) => Err(OrNoMemory::NoMemory),
    }
}
