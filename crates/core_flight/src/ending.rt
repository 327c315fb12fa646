// What the caller of an operation is told where it ends.
ghost use Rattle.std.specs.Prelude.{◌≡◌};
ghost use Rattle.domain_spec.specs.Refusals.{no_memory};
ghost use Rattle.domain_spec.specs.Types.reply;
ghost use Rattle.core_chapter.specs.Closing.{reply_in};
ghost use Rattle.core_flight.specs.Operations.{IsToldAtEnd};

use core_chapter::Underway;
use domain_spec::Outcome;
use std::alloc::Global;
use virt_types::{NoMemory, Refusal, RefusalCode, Reply, Text, TryCopy, Value};

fn no_memory(alloc: Global) -> Reply
    ensures { result ≡ reply.No no_memory }
{
    Reply::No(Refusal {
        code: RefusalCode::NoMemory,
        kept: Text::of(String::new(alloc)),
    })
}

/// One more copy of the reply of the operation that is over; where there is no memory for it, that.
#[tactic(auto, using(crate::proofs::LastReply::told_so, crate::proofs::LastReply::told_none))]
pub fn told_at_end(alloc: Global, operation: &Option<Underway>) -> Reply
    ensures { IsToldAtEnd (reply_in operation.now) result }
{
    match operation {
        None => Reply::Ok(Value::Nothing),
        Some(operation) => match operation.outcome() {
            Outcome::Over(reply) => match reply.copy() {
                Ok(reply) => reply,
                Err(NoMemory) => no_memory(alloc),
            },
            _ => Reply::Ok(Value::Nothing),
        },
    }
}
