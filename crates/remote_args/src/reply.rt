// Writing replies: whole packets.
ghost use Rattle.std.specs.Prelude.{◌≡◌, ◌+◌, ◌<◌, ◌^◌, length, IfOk, IfErr, OnOk};
ghost use Rattle.wire_spec.specs.Packets.{IsPacket, spelling};
ghost use Rattle.packet.specs.Writing.{IsTooBig, packet_with};
ghost use Rattle.wire_spec.specs.declared.message.TheConstants.{ERROR, HEADER_LENGTH, OK};
ghost use Rattle.procedure_spec.specs.Errors.{refusal_payload};
ghost use Rattle.procedure_spec.specs.ErrorsReading.{error_of};
ghost use Rattle.procedure_spec.specs.ResultsReading.{ReadsBack};
ghost use Rattle.procedure_spec.specs.Results.{HasResult, reply_header, result as spelled};

use crate::error::put_refusal;
use crate::result::put_value;
use packet::{WriteFault, begin_packet, finish_packet};
use std::alloc::Global;
use virt_types::{Bytes, OrNoMemory, Refusal, Value};
use wire_spec::{ERROR, Header, OK, REPLY};

// The header of the reply to a call.
fn reply_words(call: &Header, status: u32) -> Header
    ensures { result ≡ reply_header call.now status }
{
    Header {
        kind: REPLY,
        status,
        ..*call
    }
}

/// The reply to the call with this header, which was done and gave this value.
pub fn write_reply(
    alloc: Global,
    call: &Header,
    value: &Value,
) -> Result<Bytes, OrNoMemory<WriteFault>>
    requires { HasResult call.now value.now }
    ensures bytes { IfOk result (λ bytes. bytes ≡ spelling (packet_with (reply_header call.now OK) (spelled value.now))) }
    ensures packet { OnOk result (IsPacket (packet_with (reply_header call.now OK) (spelled value.now))) }
    ensures err { IfErr result (IsTooBig (HEADER_LENGTH + length (spelled value.now))) }
    ensures reads_back { OnOk result (ReadsBack call.now value.now) }
{
    let mut writer = begin_packet(alloc, &reply_words(call, OK))?;
    put_value(alloc, &mut writer, value)?;
    finish_packet(writer)
}

/// The reply to the call with this header, which was refused.
pub fn write_error(
    alloc: Global,
    call: &Header,
    refusal: &Refusal,
) -> Result<Bytes, OrNoMemory<WriteFault>>
    requires { length refusal.now.kept < 2 ^ 32 }
    ensures bytes { IfOk result (λ bytes. bytes ≡ spelling (packet_with (reply_header call.now ERROR) (refusal_payload refusal.now))) }
    ensures packet { OnOk result (IsPacket (packet_with (reply_header call.now ERROR) (refusal_payload refusal.now))) }
    ensures err { IfErr result (IsTooBig (HEADER_LENGTH + length (refusal_payload refusal.now))) }
    ensures reads_back { OnOk result (error_of (refusal_payload refusal.now) ≡ Ok refusal.now) }
{
    let mut writer = begin_packet(alloc, &reply_words(call, ERROR))?;
    put_refusal(&mut writer, refusal)?;
    finish_packet(writer)
}
