// The numbers and truth values at the front of what is left.
ghost use Rattle.wire_spec.specs.XdrReading.{first_double_word, first_integer, first_truth, first_word};
ghost use Rattle.xdr_codec.specs.Rest.{Steps, seen};

use crate::rest::Rest;
use wire_spec::XdrFault;

#[tactic(auto, unfolding(wire_spec::specs::XdrReading::first_word))]
pub(crate) fn word(rest: Rest<'_>) -> Result<(u32, Rest<'_>), XdrFault>
    ensures { Steps (first_word (seen rest.entry)) result }
{
    if rest.bytes.len() < 4 {
        return Err(XdrFault::Short { at: rest.place });
    }
    let (front, bytes) = rest.bytes.split_at(4);
    let value = u32::from_be_bytes([front[0], front[1], front[2], front[3]]);
    let place = rest.place + 4;
    Ok((value, Rest { bytes, place }))
}

#[tactic(auto, unfolding(wire_spec::specs::XdrReading::first_integer))]
pub(crate) fn integer(rest: Rest<'_>) -> Result<(i32, Rest<'_>), XdrFault>
    ensures { Steps (first_integer (seen rest.entry)) result }
{
    let (value, behind) = word(rest)?;
    Ok((value.cast_signed(), behind))
}

#[tactic(auto, unfolding(wire_spec::specs::XdrReading::first_double_word))]
pub(crate) fn double_word(rest: Rest<'_>) -> Result<(u64, Rest<'_>), XdrFault>
    ensures { Steps (first_double_word (seen rest.entry)) result }
{
    if rest.bytes.len() < 8 {
        return Err(XdrFault::Short { at: rest.place });
    }
    let (front, bytes) = rest.bytes.split_at(8);
    let value = u64::from_be_bytes([
        front[0], front[1], front[2], front[3], front[4], front[5], front[6], front[7],
    ]);
    let place = rest.place + 8;
    Ok((value, Rest { bytes, place }))
}

#[tactic(auto, unfolding(wire_spec::specs::XdrReading::first_truth))]
pub(crate) fn truth(rest: Rest<'_>) -> Result<(bool, Rest<'_>), XdrFault>
    ensures { Steps (first_truth (seen rest.entry)) result }
{
    let (value, behind) = word(rest)?;
    match value {
        0 => Ok((false, behind)),
        1 => Ok((true, behind)),
        _ => Err(XdrFault::Flag { at: rest.place }),
    }
}
