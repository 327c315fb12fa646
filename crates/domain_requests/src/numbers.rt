// Numbers that say yes or no.
ghost use Rattle.std.specs.Prelude.{◌≡◌, ◌++◌, IfErr, IfOk, None, Some, codes, decimal, int_lt, pos};
ghost use Rattle.std.specs.Fmt.{signed_decimal};
ghost use Rattle.session_spec.specs.Refused.{refusal};
ghost use Rattle.virt_types.specs.Below.types_base.declared.refusal.RefusalCode.TheVariants as code;
ghost use Rattle.domain_requests.specs.Requests.{Fails, passed_one};

use crate::refusing::refuse;
use std::alloc::Global;
use virt_types::{OrNoMemory, Refusal, RefusalCode};

/// The bound of 0 and 1 that a number passes.
pub(crate) fn passed_one(n: i32) -> Option<u32>
    ensures { result ≡ passed_one n }
{
    if n < 0 {
        Some(0)
    } else if n > 1 {
        Some(1)
    } else {
        None
    }
}

/// The refusal of a number that passes this bound.
pub(crate) fn refuse_number(alloc: Global, n: i32, bound: u32) -> OrNoMemory<Refusal>
    ensures { Fails result (refusal code.InvalidArgument (signed_decimal n ++ codes " " ++ decimal bound)) }
{
    match format!(in alloc; "{n} {bound}") {
        Ok(kept) => refuse(alloc, RefusalCode::InvalidArgument, kept.as_str()),
        Err(_) => OrNoMemory::NoMemory,
    }
}
