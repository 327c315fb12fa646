// The opaque data and strings at the front of what is left.
ghost use Rattle.std.specs.Prelude.{◌≡◌, ◌+◌, ◌^◌, ◌<◌, ◌≤◌, length, position, IfOk};
ghost use Rattle.wire_spec.specs.Xdr.{padding_length as padding_bytes};
ghost use Rattle.wire_spec.specs.XdrReading.{behind_padding as behind_the_padding, first_bytes, first_fixed, first_length, first_opaque, first_string, is_set, text_fault};
ghost use Rattle.xdr_codec.specs.Rest.{IsText, Passes, Slices, Steps, seen};

use crate::number::word;
use crate::rest::Rest;
use wire_spec::XdrFault;

/// How many bytes of padding come after so many bytes.
pub(crate) fn padding_length(size: usize) -> usize
    ensures { result ≡ padding_bytes size }
{
    (4 - size % 4) % 4
}

// So many bytes, where they and their padding are there; their item begins at `start`.
fn bytes(start: u64, size: u32, rest: Rest<'_>) -> Result<(&[u8], Rest<'_>), XdrFault>
    ensures read { Slices (first_bytes start size (seen rest.entry)) result }
    ensures room { IfOk result (λ x. padding_bytes size ≤ length x.1.bytes.now) }
{
    let size = size as usize;
    if rest.bytes.len() < size + padding_length(size) {
        return Err(XdrFault::Short { at: start });
    }
    let (bytes, behind) = rest.bytes.split_at(size);
    let place = rest.place + size as u64;
    Ok((
        bytes,
        Rest {
            bytes: behind,
            place,
        },
    ))
}

// The first byte that is not 0.
fn set_position(bytes: &[u8]) -> Option<usize>
    ensures { result ≡ position is_set bytes.now }
{
    bytes.iter().position(|byte| *byte != 0)
}

// What is left after the padding of so many bytes.
fn behind_padding(size: u32, rest: Rest<'_>) -> Result<Rest<'_>, XdrFault>
    requires { padding_bytes size ≤ length rest.bytes.now }
    ensures { Passes (behind_the_padding size (seen rest.entry)) result }
{
    let (padding, bytes) = rest.bytes.split_at(padding_length(size as usize));
    match set_position(padding) {
        Some(i) => Err(XdrFault::Pad {
            at: rest.place + i as u64,
        }),
        None => Ok(Rest {
            bytes,
            place: rest.place + padding.len() as u64,
        }),
    }
}

// The text that the bytes are, of which the first has this place.
fn utf8(place: u64, bytes: &[u8]) -> Result<&str, XdrFault>
    requires { place + length bytes.now < 2 ^ 64 }
    ensures { IsText place bytes.now result }
{
    match str::from_utf8(bytes) {
        Ok(text) => Ok(text),
        Err(fault) => Err(XdrFault::Text {
            at: place + fault.valid_up_to() as u64,
        }),
    }
}

#[tactic(auto, unfolding(wire_spec::specs::XdrReading::first_fixed))]
pub(crate) fn fixed(size: u32, rest: Rest<'_>) -> Result<(&[u8], Rest<'_>), XdrFault>
    ensures { Slices (first_fixed size (seen rest.entry)) result }
{
    let (bytes, behind) = bytes(rest.place, size, rest)?;
    let rest = behind_padding(size, behind)?;
    Ok((bytes, rest))
}

// A length word of at most `most`.
#[tactic(auto, unfolding(wire_spec::specs::XdrReading::first_length))]
fn size(most: u32, rest: Rest<'_>) -> Result<(u32, Rest<'_>), XdrFault>
    ensures { Steps (first_length most (seen rest.entry)) result }
{
    let (size, behind) = word(rest)?;
    if size > most {
        return Err(XdrFault::TooLong {
            at: rest.place,
            length: size as u64,
        });
    }
    Ok((size, behind))
}

#[tactic(auto, unfolding(wire_spec::specs::XdrReading::first_opaque))]
pub(crate) fn opaque(most: u32, rest: Rest<'_>) -> Result<(&[u8], Rest<'_>), XdrFault>
    ensures { Slices (first_opaque most (seen rest.entry)) result }
{
    let (size, behind) = size(most, rest)?;
    let (bytes, behind) = bytes(rest.place, size, behind)?;
    let rest = behind_padding(size, behind)?;
    Ok((bytes, rest))
}

#[tactic(auto, unfolding(wire_spec::specs::XdrReading::first_string))]
pub(crate) fn string(most: u32, rest: Rest<'_>) -> Result<(&str, Rest<'_>), XdrFault>
    ensures { Slices (first_string most (seen rest.entry)) result }
{
    let (size, body) = size(most, rest)?;
    let (bytes, behind) = bytes(rest.place, size, body)?;
    let text = utf8(body.place, bytes)?;
    let rest = behind_padding(size, behind)?;
    Ok((text, rest))
}
