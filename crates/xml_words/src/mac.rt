// MAC addresses as texts, read and written.
ghost use Rattle.std.specs.Prelude.{◌≡◌, ◌+◌, ◌<◌, ◌==◌, ◌++◌, ◌∷◌, [], length, map, IfOk, IfSome, OnOk, if◌then◌else◌};
ghost use Rattle.std.specs.Bool.{OnTrue};
ghost use Rattle.std.specs.Char.{digit_char};
ghost use Rattle.std.specs.List.{join_with_byte};
ghost use Rattle.std.specs.String.{string_bytes};
ghost use Rattle.text_spec.specs.MacText as spec;
ghost use Rattle.types_base.specs.Mac as printed;

use std::alloc::Global;
use types_base::{Mac, NoMemory};

/// The length of an address, in bytes of its text.
const LENGTH: usize = 17;

#[tactic(auto, unfolding(text_spec::specs::MacText::hex_value))]
fn hex_value(digit: u8) -> Option<u8>
    ensures value { result ≡ spec.hex_value digit }
    ensures within { IfSome result (λ v. v < 16) }
{
    match digit {
        b'0'..=b'9' => Some(digit - b'0'),
        b'a'..=b'f' => Some(digit - 87),
        b'A'..=b'F' => Some(digit - 55),
        _ => None,
    }
}

/// The byte of the pair of digits at a place.
#[tactic(auto, unfolding(text_spec::specs::MacText::byte_at))]
fn byte_at(text: &[u8], place: usize) -> Option<u8>
    requires { place + 1 < length text.now }
    ensures { result ≡ spec.byte_at text.now place }
{
    let high = hex_value(text[place])?;
    let low = hex_value(text[place + 1])?;
    Some(high * 16 + low)
}

#[tactic(auto, unfolding(text_spec::specs::MacText::has_colons))]
fn has_colons(text: &[u8]) -> bool
    ensures value { result ≡ spec.has_colons text.now }
    ensures within { OnTrue result (length text.now ≡ 17) }
{
    text.len() == LENGTH
        && text[2] == b':'
        && text[5] == b':'
        && text[8] == b':'
        && text[11] == b':'
        && text[14] == b':'
}

fn six_bytes(text: &[u8]) -> Option<Mac>
    requires { length text.now ≡ 17 }
    ensures { result ≡ spec.six_bytes text.now }
{
    Some(Mac {
        bytes: [
            byte_at(text, 0)?,
            byte_at(text, 3)?,
            byte_at(text, 6)?,
            byte_at(text, 9)?,
            byte_at(text, 12)?,
            byte_at(text, 15)?,
        ],
    })
}

/// The address that a text is: six pairs of hexadecimal digits in either case, with colons between
/// them.
#[tactic(auto, unfolding(text_spec::specs::MacText::mac_of))]
pub fn mac_of(text: &[u8]) -> Option<Mac>
    ensures { result ≡ spec.mac_of text.now }
{
    if has_colons(text) {
        six_bytes(text)
    } else {
        None
    }
}

/// Adds a hexadecimal digit, in small letters.
fn push_digit(out: &mut String, digit: u8) -> Result<(), NoMemory>
    requires { digit < 16 }
    ensures { OnOk result (string_bytes out.new ≡ string_bytes out.old ++ digit_char digit ∷ []) }
{
    let digit = if digit < 10 {
        b'0' + digit
    } else {
        b'a' + (digit - 10)
    };
    out.push(char::from(digit))?;
    Ok(())
}

/// Adds a byte as two digits.
fn push_byte(out: &mut String, byte: u8) -> Result<(), NoMemory>
    ensures { OnOk result (string_bytes out.new ≡ string_bytes out.old ++ printed.byte_text byte) }
{
    push_digit(out, byte / 16)?;
    push_digit(out, byte % 16)
}

/// Adds a colon where more follows.
fn push_colon(out: &mut String, following: &[u8]) -> Result<(), NoMemory>
    ensures { OnOk result (string_bytes out.new ≡ string_bytes out.old
        ++ (if length following.now == 0 then [] else printed.colon ∷ [])) }
{
    if !following.is_empty() {
        out.push(':')?;
    }
    Ok(())
}

/// Adds bytes with colons between them.
fn push_bytes(out: &mut String, bytes: &[u8]) -> Result<(), NoMemory>
    ensures { OnOk result (string_bytes out.new ≡ string_bytes out.old
        ++ join_with_byte printed.colon (map printed.byte_text bytes.now)) }
{
    let mut rest = bytes;
    while let Some((byte, following)) = rest.split_first() {
        push_byte(out, *byte)?;
        push_colon(out, following)?;
        rest = following;
    }
    Ok(())
}

/// The text of an address: its bytes as pairs of small hexadecimal digits, with colons between them.
#[tactic(auto, unfolding(types_base::specs::Mac::mac_text))]
pub fn mac_text(alloc: Global, mac: Mac) -> Result<String, NoMemory>
    ensures { IfOk result (λ text. string_bytes text ≡ printed.mac_text mac) }
{
    let mut text = String::new(alloc);
    push_bytes(&mut text, &mac.bytes)?;
    Ok(text)
}
