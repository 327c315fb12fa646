// Refusals of what a request says.
ghost use Rattle.std.specs.Prelude.{◌≡◌, ◌++◌, codes, decimal};
ghost use Rattle.std.specs.Fmt.{signed_decimal};
ghost use Rattle.outcome_spec.specs.Below.domain_requests.Requests.{Fails};
ghost use Rattle.procedure_spec.specs.Lines.{line};
ghost use Rattle.procedure_spec.specs.Requests.{procedure_of};
ghost use Rattle.session_spec.specs.Refused.{refusal};
ghost use Rattle.virt_types.specs.Below.types_base.declared.refusal.RefusalCode.TheVariants as code;

use procedure_spec::call_numbers;
use std::alloc::Global;
use virt_types::{NoMemory, OrNoMemory, Refusal, RefusalCode, Request};

/// The refusal of this code, which keeps a front of the text.
pub(crate) fn refuse(alloc: Global, code: RefusalCode, kept: &str) -> OrNoMemory<Refusal>
    ensures { Fails result (refusal code kept.now) }
{
    match Refusal::new(alloc, code, kept) {
        Ok(why) => OrNoMemory::Fault(why),
        Err(NoMemory) => OrNoMemory::NoMemory,
    }
}

/// The refusal of a number that passes this bound.
pub(crate) fn refuse_number(alloc: Global, n: i32, bound: u32) -> OrNoMemory<Refusal>
    ensures { Fails result (refusal code.InvalidArgument (signed_decimal n ++ codes " " ++ decimal bound)) }
{
    match format!(in alloc; "{n} {bound}") {
        Ok(kept) => refuse(alloc, RefusalCode::InvalidArgument, kept.as_str()),
        Err(_) => OrNoMemory::NoMemory,
    }
}

/// The refusal of a procedure that is not built, which keeps its number.
pub(crate) fn refuse_procedure(alloc: Global, request: &Request) -> OrNoMemory<Refusal>
    ensures { Fails result (refusal code.NotBuilt (decimal (line (procedure_of request.now)).number)) }
{
    let (_, number) = call_numbers(request);
    match number.to_string(alloc) {
        Ok(kept) => refuse(alloc, RefusalCode::NotBuilt, kept.as_str()),
        Err(_) => OrNoMemory::NoMemory,
    }
}
