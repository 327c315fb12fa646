// Sizes: numbers of units.
ghost use Rattle.std.specs.Prelude.{◌≡◌, ◌*◌, ◌^◌, ◌<◌, ◌≤◌, Some, None, IfSome};
ghost use Rattle.std.specs.Option.{option_map_or, option_copied};
ghost use Rattle.text_spec.specs.Units as spec;

use crate::number::read_number;
use crate::unit::unit_bytes;
use text_spec::SizeFault;

/// The most memory, in KiB.
const MOST_KIBIBYTES: u64 = 1 << 40;

/// The most storage, in bytes.
const MOST_BYTES: u64 = 1 << 60;

/// The bytes of a unit, or of the usual one where there is none.
fn unit_or(unit: Option<&str>, usual: u64) -> Option<u64>
    ensures { result ≡ option_map_or spec.unit_of (option_copied unit.entry) (Some usual) }
{
    match unit {
        Some(unit) => unit_bytes(unit.as_bytes()),
        None => Some(usual),
    }
}

/// Memory in KiB, from so many units of so many bytes.
fn kibibytes(number: u64, unit: u64) -> Result<u64, SizeFault>
    ensures { result ≡ spec.ranged 1 (2 ^ 40) (Some (spec.rounded_up (number * unit))) }
{
    match number.checked_mul(unit) {
        Some(bytes) if (1..=MOST_KIBIBYTES).contains(&bytes.div_ceil(1024)) => {
            Ok(bytes.div_ceil(1024))
        }
        _ => Err(SizeFault::Range),
    }
}

/// Storage in bytes, from so many units of so many bytes.
fn bytes(number: u64, unit: u64) -> Result<u64, SizeFault>
    ensures { result ≡ spec.ranged 0 (2 ^ 60) (Some (number * unit)) }
{
    match number.checked_mul(unit) {
        Some(bytes) if bytes <= MOST_BYTES => Ok(bytes),
        _ => Err(SizeFault::Range),
    }
}

/// The size of memory in KiB, 1 to 2^40, rounded up. A number without a unit counts KiB.
///
/// `BadValue` where the text is no number of 1 to 19 digits or the unit is none, else `Range` where
/// the size is outside its range.
#[tactic(auto, unfolding(text_spec::specs::Units::kibibytes_of, text_spec::specs::Units::size_of))]
pub fn read_kibibytes(text: &str, unit: Option<&str>) -> Result<u64, SizeFault>
    ensures { result ≡ spec.kibibytes_of text.now (option_copied unit.entry) }
{
    match (read_number(text), unit_or(unit, 1024)) {
        (Some(number), Some(unit)) => kibibytes(number, unit),
        _ => Err(SizeFault::BadValue),
    }
}

/// The size of storage in bytes, 0 to 2^60. A number without a unit counts bytes.
///
/// `BadValue` where the text is no number of 1 to 19 digits or the unit is none, else `Range` where
/// the size is outside its range.
#[tactic(auto, unfolding(text_spec::specs::Units::bytes_of, text_spec::specs::Units::size_of))]
pub fn read_bytes(text: &str, unit: Option<&str>) -> Result<u64, SizeFault>
    ensures { result ≡ spec.bytes_of text.now (option_copied unit.entry) }
{
    match (read_number(text), unit_or(unit, 1)) {
        (Some(number), Some(unit)) => bytes(number, unit),
        _ => Err(SizeFault::BadValue),
    }
}
