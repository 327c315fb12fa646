// Replies as bytes.
ghost use Rattle.std.specs.Prelude.{◌≡◌, IfOk, OnOk};
ghost use Rattle.row_session.specs.Replying.{CanReply};
ghost use Rattle.session_spec.specs.Replies.{reply_packet};
ghost use Rattle.virt_types.specs.declared.value.Reply.TheVariants as reply;
ghost use Rattle.wire_spec.specs.Packets.{IsPacket, spelling};

use packet::{Header, WriteFault};
use remote_args::{write_error, write_reply};
use std::alloc::Global;
use virt_types::{Bytes, NoMemory, OrNoMemory, Refusal, Reply, Value};

/// The reply with this value. For one that no packet holds there is no room, as if memory ran out.
fn write_value(alloc: Global, call: &Header, value: &Value) -> Result<Bytes, NoMemory>
    requires { CanReply call.now (reply.Ok value.now) }
    ensures bytes { IfOk result (λ bytes. bytes ≡ spelling (reply_packet call.now (reply.Ok value.now))) }
    ensures whole { OnOk result (IsPacket (reply_packet call.now (reply.Ok value.now))) }
{
    match write_reply(alloc, call, value) {
        Ok(bytes) => Ok(bytes),
        Err(OrNoMemory::NoMemory) | Err(OrNoMemory::Fault(WriteFault::TooBig { .. })) => {
            Err(NoMemory)
        }
    }
}

/// The reply with this refusal.
#[tactic(auto, using(crate::proofs::Fits::refusal_short))]
fn write_refusal(alloc: Global, call: &Header, why: &Refusal) -> Result<Bytes, NoMemory>
    requires { CanReply call.now (reply.No why.now) }
    ensures bytes { IfOk result (λ bytes. bytes ≡ spelling (reply_packet call.now (reply.No why.now))) }
    ensures whole { OnOk result (IsPacket (reply_packet call.now (reply.No why.now))) }
{
    match write_error(alloc, call, why) {
        Ok(bytes) => Ok(bytes),
        Err(OrNoMemory::NoMemory) => Err(NoMemory),
        Err(OrNoMemory::Fault(WriteFault::TooBig { .. })) => unreachable!(),
    }
}

/// The reply as bytes.
pub(crate) fn write(alloc: Global, call: &Header, said: &Reply) -> Result<Bytes, NoMemory>
    requires { CanReply call.now said.now }
    ensures bytes { IfOk result (λ bytes. bytes ≡ spelling (reply_packet call.now said.now)) }
    ensures whole { OnOk result (IsPacket (reply_packet call.now said.now)) }
{
    match said {
        Reply::Ok(value) => write_value(alloc, call, value),
        Reply::No(why) => write_refusal(alloc, call, why),
    }
}
