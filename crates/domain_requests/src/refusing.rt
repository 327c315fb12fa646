// Refusals, unless there is no memory.
ghost use Rattle.session_spec.specs.Refused.{refusal};
ghost use Rattle.domain_requests.specs.Requests.{Fails};

use std::alloc::Global;
use virt_types::{NoMemory, OrNoMemory, Refusal, RefusalCode};

/// The refusal of this code, which keeps a front of the text.
pub(crate) fn refuse(alloc: Global, code: RefusalCode, kept: &str) -> OrNoMemory<Refusal>
    ensures { Fails result (refusal code kept.now) }
{
    match Refusal::new(alloc, code, kept) {
        Ok(why) => OrNoMemory::Fault(why),
        Err(NoMemory) => OrNoMemory::NoMemory,
    }
}
