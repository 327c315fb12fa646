// Reading the payload of an error.
ghost use Rattle.std.specs.Prelude.{Ok, ◌≡◌, IfOk};
ghost use Rattle.virt_types.specs.Below.types_base.declared.refusal.Refusal.{Refusal as Told};
ghost use Rattle.virt_types.specs.Memory.{UnlessNoMemory};
ghost use Rattle.procedure_spec.specs.Codes.{code_numbered as code_by};
ghost use Rattle.procedure_spec.specs.Errors.{IsErrorOf};
ghost use Rattle.procedure_spec.specs.ErrorsReading.{error_of, first_code, first_head, first_kept, first_refusal, is_text as told_is_text, told_absent, told_head, told_tail, told_text, told_word};
ghost use Rattle.remote_args.specs.Steps.{Passes, Walks};

use crate::item::{end, optional_text, truth, word};
use procedure_spec::{ArgFault, ERROR_DOMAIN, ERROR_LEVEL};
use std::alloc::Global;
use virt_types::{OrNoMemory, Refusal, RefusalCode, Text};
use xdr_codec::Reader;

#[tactic(auto, unfolding(procedure_spec::specs::ErrorsReading::told_word))]
fn pass_word(reader: &mut Reader<'_>, wanted: u32) -> Result<(), OrNoMemory<ArgFault>>
    ensures { Passes (told_word wanted) reader.old result reader.new }
{
    let at = reader.place();
    if word(reader)? != wanted {
        return Err(OrNoMemory::Fault(ArgFault::Foreign { at }));
    }
    Ok(())
}

#[tactic(auto, unfolding(procedure_spec::specs::ErrorsReading::told_absent))]
fn pass_absent(reader: &mut Reader<'_>) -> Result<(), OrNoMemory<ArgFault>>
    ensures { Passes told_absent reader.old result reader.new }
{
    let at = reader.place();
    if truth(reader)? {
        return Err(OrNoMemory::Fault(ArgFault::Foreign { at }));
    }
    Ok(())
}

fn is_text(text: &Option<Text>, wanted: &str) -> bool
    ensures { result ≡ told_is_text wanted.now text.now }
{
    match text {
        Some(text) => text.as_str() == wanted,
        None => false,
    }
}

#[tactic(auto, unfolding(procedure_spec::specs::ErrorsReading::told_text))]
fn pass_text(
    alloc: Global,
    reader: &mut Reader<'_>,
    wanted: &str,
) -> Result<(), OrNoMemory<ArgFault>>
    ensures { Passes (told_text wanted.now) reader.old result reader.new }
{
    let at = reader.place();
    let text = optional_text(alloc, reader)?;
    if !is_text(&text, wanted) {
        return Err(OrNoMemory::Fault(ArgFault::Foreign { at }));
    }
    Ok(())
}

#[tactic(auto, using(procedure_spec::proofs::Codes::code_is))]
fn code_numbered(number: u32) -> Option<RefusalCode>
    ensures { result ≡ code_by number }
{
    RefusalCode::of_number(number)
}

#[tactic(auto, unfolding(procedure_spec::specs::ErrorsReading::first_code))]
fn code(reader: &mut Reader<'_>) -> Result<RefusalCode, OrNoMemory<ArgFault>>
    ensures { Walks first_code reader.old result reader.new }
{
    let at = reader.place();
    match code_numbered(word(reader)?) {
        Some(code) => Ok(code),
        None => Err(OrNoMemory::Fault(ArgFault::Foreign { at })),
    }
}

// The error domain, the message, the level, and no domain.
#[tactic(auto, unfolding(procedure_spec::specs::ErrorsReading::told_head))]
fn pass_head(
    alloc: Global,
    reader: &mut Reader<'_>,
    message: &str,
) -> Result<(), OrNoMemory<ArgFault>>
    ensures { Passes (told_head message.now) reader.old result reader.new }
{
    pass_word(reader, ERROR_DOMAIN)?;
    pass_text(alloc, reader, message)?;
    pass_word(reader, ERROR_LEVEL)?;
    pass_absent(reader)
}

#[tactic(auto, unfolding(procedure_spec::specs::ErrorsReading::first_head))]
fn head(alloc: Global, reader: &mut Reader<'_>) -> Result<RefusalCode, OrNoMemory<ArgFault>>
    ensures { Walks first_head reader.old result reader.new }
{
    let code = code(reader)?;
    pass_head(alloc, reader, code.message())?;
    Ok(code)
}

// The first string, which is absent where nothing is kept.
#[tactic(auto, unfolding(procedure_spec::specs::ErrorsReading::first_kept))]
fn kept(alloc: Global, reader: &mut Reader<'_>) -> Result<Text, OrNoMemory<ArgFault>>
    ensures { Walks first_kept reader.old result reader.new }
{
    let at = reader.place();
    match optional_text(alloc, reader)? {
        None => Ok(Text::of(String::new(alloc))),
        Some(text) if text.is_empty() => Err(OrNoMemory::Fault(ArgFault::Foreign { at })),
        Some(text) => Ok(text),
    }
}

// No other strings, two numbers that are not used, and no network.
#[tactic(auto, unfolding(procedure_spec::specs::ErrorsReading::told_tail))]
fn pass_tail(reader: &mut Reader<'_>) -> Result<(), OrNoMemory<ArgFault>>
    ensures { Passes told_tail reader.old result reader.new }
{
    pass_absent(reader)?;
    pass_absent(reader)?;
    pass_word(reader, 0)?;
    pass_word(reader, 0)?;
    pass_absent(reader)
}

#[tactic(auto, unfolding(procedure_spec::specs::ErrorsReading::first_refusal))]
fn refusal(alloc: Global, reader: &mut Reader<'_>) -> Result<Refusal, OrNoMemory<ArgFault>>
    ensures { Walks first_refusal reader.old result reader.new }
{
    let code = head(alloc, reader)?;
    let kept = kept(alloc, reader)?;
    pass_tail(reader)?;
    Ok(Refusal { code, kept })
}

#[tactic(auto, unfolding(procedure_spec::specs::Reading::all))]
fn whole(alloc: Global, payload: &[u8]) -> Result<Refusal, OrNoMemory<ArgFault>>
    ensures { UnlessNoMemory result (error_of payload.now) }
{
    let mut reader = Reader::new(payload);
    let refusal = refusal(alloc, &mut reader)?;
    end(&reader)?;
    Ok(refusal)
}

/// The refusal that the payload of an error reports. Items of an error that are well spelled and say
/// anything else than this project's errors do are refused as `Foreign`.
pub fn read_error(alloc: Global, payload: &[u8]) -> Result<Refusal, OrNoMemory<ArgFault>>
    ensures found { IfOk result (IsErrorOf payload.now) }
    ensures only { (told : Told) → IsErrorOf payload.now told → UnlessNoMemory result (Ok told) }
    ensures fault { UnlessNoMemory result (error_of payload.now) }
{
    whole(alloc, payload)
}
