// What the caller of an operation is told that rests.
ghost use Rattle.std.specs.Prelude.{◌≡◌};
ghost use Rattle.domain_spec.specs.Refusals.{no_memory};
ghost use Rattle.domain_spec.specs.Types.reply;
ghost use Rattle.core_log.specs.Below.core_flight.Operations.{IsToldAtEnd};
ghost use Rattle.core_log.specs.Record.{force_of};
ghost use Rattle.core_steps.specs.Resting.{rested_in};

use core_log::Record;
use domain_spec::Outcome;
use std::alloc::Global;
use virt_types::{NoMemory, Refusal, RefusalCode, Reply, Text, TryCopy, Value};

fn no_memory(alloc: Global) -> Reply
    ensures { result ≡ reply.No no_memory }
{
    Reply::No(Refusal {
        code: RefusalCode::NoMemory,
        kept: Text::of(String::new(alloc)),
    })
}

/// The reply of the phase that led the operation to rest: what the call is told that came so far, or, where there is
/// no memory for one more copy of it, that.
#[tactic(auto, using(crate::proofs::OfLedger::told_so, crate::proofs::OfLedger::told_none))]
pub fn rest_reply(kept: &Record, alloc: Global) -> Reply
    ensures { IsToldAtEnd (rested_in (force_of kept.now).operation) result }
{
    match kept.operation() {
        None => Reply::Ok(Value::Nothing),
        Some(operation) => match operation.outcome() {
            Outcome::Rest(reply) => match reply.copy() {
                Ok(reply) => reply,
                Err(NoMemory) => no_memory(alloc),
            },
            _ => Reply::Ok(Value::Nothing),
        },
    }
}
