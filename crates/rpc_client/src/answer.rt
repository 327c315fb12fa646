// What a reply answers to the call of a request.
ghost use Rattle.std.specs.Prelude.{◌≡◌, IfOk};
ghost use Rattle.virt_types.specs.Memory.{UnlessNoMemory};
ghost use Rattle.procedure_spec.specs.ErrorsReading.{error_of};
ghost use Rattle.procedure_spec.specs.ResultsReading.{reply_of};
ghost use Rattle.rpc_client.specs.Answer as spec;

use crate::fault::ClientFault;
use packet::{ERROR, Header, OK, Packet};
use remote_args::{read_error, read_reply};
use std::alloc::Global;
use virt_types::{OrNoMemory, Reply, Request};

fn done(alloc: Global, request: &Request, payload: &[u8]) -> Result<Reply, OrNoMemory<ClientFault>>
    ensures value { UnlessNoMemory result (spec.done (reply_of request.now payload.now)) }
    ensures spelled { IfOk result (spec.Spells request.now payload.now) }
{
    match read_reply(alloc, request, payload) {
        Ok(value) => Ok(Reply::Ok(value)),
        Err(OrNoMemory::Fault(_)) => Err(OrNoMemory::Fault(ClientFault::BadPayload)),
        Err(OrNoMemory::NoMemory) => Err(OrNoMemory::NoMemory),
    }
}

fn refused(
    alloc: Global,
    request: &Request,
    payload: &[u8],
) -> Result<Reply, OrNoMemory<ClientFault>>
    ensures value { UnlessNoMemory result (spec.refused (error_of payload.now)) }
    ensures spelled { IfOk result (spec.Spells request.now payload.now) }
{
    match read_error(alloc, payload) {
        Ok(refusal) => Ok(Reply::No(refusal)),
        Err(OrNoMemory::Fault(_)) => Err(OrNoMemory::Fault(ClientFault::BadPayload)),
        Err(OrNoMemory::NoMemory) => Err(OrNoMemory::NoMemory),
    }
}

#[tactic(auto, unfolding(crate::specs::Answer::payload_answer))]
fn payload_answer(
    alloc: Global,
    request: &Request,
    reply: &Packet,
) -> Result<Reply, OrNoMemory<ClientFault>>
    ensures value { UnlessNoMemory result (spec.payload_answer request.now reply.now) }
    ensures spelled { IfOk result (spec.Spells request.now reply.now.payload) }
{
    if reply.header.status == OK {
        done(alloc, request, reply.payload.as_slice())
    } else if reply.header.status == ERROR {
        refused(alloc, request, reply.payload.as_slice())
    } else {
        Err(OrNoMemory::Fault(ClientFault::BadPayload))
    }
}

fn is_of_procedure(call: &Header, reply: &Header) -> bool
    ensures { result ≡ spec.is_of_procedure call.now reply.now }
{
    reply.prog == call.prog && (reply.vers == call.vers && reply.procedure == call.procedure)
}

/// The answer that a reply gives to the call of a request with this header.
#[tactic(auto, unfolding(crate::specs::Answer::answer_of))]
pub(crate) fn answer_of(
    alloc: Global,
    request: &Request,
    call: &Header,
    reply: &Packet,
) -> Result<Reply, OrNoMemory<ClientFault>>
    ensures value { UnlessNoMemory result (spec.answer_of request.now call.now reply.now) }
    ensures spelled { IfOk result (spec.Spells request.now reply.now.payload) }
{
    if reply.header.serial != call.serial {
        return Err(OrNoMemory::Fault(ClientFault::WrongSerial {
            sent: call.serial,
            got: reply.header.serial,
        }));
    }
    if !is_of_procedure(call, &reply.header) {
        return Err(OrNoMemory::Fault(ClientFault::BadPayload));
    }
    payload_answer(alloc, request, reply)
}
