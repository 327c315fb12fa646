// What a refusal keeps of what was asked for.
ghost use Rattle.std.specs.Prelude.{◌≡◌, IfOk, IsUtf8};
ghost use Rattle.std.specs.Fmt.{decimal};
ghost use Rattle.uuid.specs.Text.{hyphenated_text, lower};
ghost use Rattle.virt_types.specs.Refusal.{kept_cut};

use itoa::Buffer;
use std::alloc::Global;
use virt_types::{MOST_KEPT_BYTES, NoMemory, Refusal, RefusalCode, Text, Uuid};

// The longest front of these bytes that is text, within 1,024 bytes.
fn text_front(bytes: &[u8]) -> &str
    ensures { result.now ≡ kept_cut bytes.now }
{
    let front = &bytes[..MOST_KEPT_BYTES.min(bytes.len())];
    match str::from_utf8(front) {
        Ok(text) => text,
        Err(fault) => text_of(&front[..fault.valid_up_to()]),
    }
}

// These bytes, which are text.
fn text_of(bytes: &[u8]) -> &str
    requires { IsUtf8 bytes.now }
    ensures { result.now ≡ bytes.now }
{
    match str::from_utf8(bytes) {
        Ok(text) => text,
        Err(_) => unreachable!(),
    }
}

/// A refusal for this reason. Of the bytes, which need not be text, it keeps the longest front of whole characters within
/// 1,024 bytes.
pub fn refuse_bytes(alloc: Global, code: RefusalCode, bytes: &[u8]) -> Result<Refusal, NoMemory>
    ensures { IfOk result (λ why. why ≡ record { code = code; kept = kept_cut bytes.now }) }
{
    Ok(Refusal {
        code,
        kept: Text::copy_of(alloc, text_front(bytes))?,
    })
}

/// A refusal for this reason, which keeps this identifier.
pub fn refuse_uuid(alloc: Global, code: RefusalCode, uuid: Uuid) -> Result<Refusal, NoMemory>
    ensures { IfOk result (λ why. why ≡ record { code = code; kept = kept_cut (hyphenated_text lower uuid) }) }
{
    let mut buffer = Uuid::encode_buffer();
    Refusal::new(alloc, code, uuid.hyphenated().encode_lower(&mut buffer))
}

/// A refusal for this reason, which keeps this number.
pub fn refuse_number(alloc: Global, code: RefusalCode, number: u64) -> Result<Refusal, NoMemory>
    ensures { IfOk result (λ why. why ≡ record { code = code; kept = kept_cut (decimal number) }) }
{
    let mut buffer = Buffer::new();
    Refusal::new(alloc, code, buffer.format(number))
}
