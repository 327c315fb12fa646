// Writing the payload of an error.
ghost use Rattle.std.specs.Prelude.{◌≡◌, ◌++◌, ◌<◌, ◌^◌, length, OnOk};
ghost use Rattle.std.specs.Str.{IsUtf8};
ghost use Rattle.virt_types.specs.Refusal.{refusal_message, refusal_number};
ghost use Rattle.wire_spec.specs.Xdr.{opaque, optional};
ghost use Rattle.procedure_spec.specs.Errors.{head, kept_string, refusal_payload, tail};

use procedure_spec::{ERROR_DOMAIN, ERROR_LEVEL};
use virt_types::{NoMemory, Refusal, RefusalCode, Text};
use xdr_codec::Writer;

// The first string of an error, which is absent where nothing is kept.
fn put_kept(writer: &mut Writer, kept: &Text) -> Result<(), NoMemory>
    requires { length kept.now < 2 ^ 32 }
    ensures written { OnOk result (writer.new ≡ writer.old ++ optional opaque (kept_string kept.now)) }
    ensures text { OnOk result (IsUtf8 kept.now) }
{
    let text = kept.as_str();
    if text.is_empty() {
        return writer.put_optional(false);
    }
    writer.put_optional(true)?;
    writer.put_string(text.as_bytes())
}

// No other strings, two numbers that are not used, and no network.
fn put_tail(writer: &mut Writer) -> Result<(), NoMemory>
    ensures { OnOk result (writer.new ≡ writer.old ++ tail) }
{
    writer.put_optional(false)?;
    writer.put_optional(false)?;
    writer.put_u32(0)?;
    writer.put_u32(0)?;
    writer.put_optional(false)
}

// The code, the error domain, the message, the level, and no domain.
#[tactic(auto, using(procedure_spec::proofs::Messages::message_short))]
fn put_head(writer: &mut Writer, code: RefusalCode) -> Result<(), NoMemory>
    ensures { OnOk result (writer.new ≡ writer.old ++ head (refusal_number code) (refusal_message code)) }
{
    writer.put_u32(code.number())?;
    writer.put_u32(ERROR_DOMAIN)?;
    writer.put_optional(true)?;
    writer.put_string(code.message().as_bytes())?;
    writer.put_u32(ERROR_LEVEL)?;
    writer.put_optional(false)
}

/// Writes the payload of the error that reports a refusal.
pub(crate) fn put_refusal(writer: &mut Writer, refusal: &Refusal) -> Result<(), NoMemory>
    requires { length refusal.now.kept < 2 ^ 32 }
    ensures written { OnOk result (writer.new ≡ writer.old ++ refusal_payload refusal.now) }
    ensures text { OnOk result (IsUtf8 refusal.now.kept) }
{
    put_head(writer, refusal.code)?;
    put_kept(writer, &refusal.kept)?;
    put_tail(writer)
}
