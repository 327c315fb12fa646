// Units of sizes.
ghost use Rattle.std.specs.Prelude.{◌≡◌, ◌^◌, ◌≤◌, IfSome, Some, None};
ghost use Rattle.std.specs.Option.{option_map};
ghost use Rattle.text_spec.specs.Units as spec;

/// The bytes of a unit of powers of 1000, by its letter in small.
#[tactic(auto, unfolding(text_spec::specs::Units::power_of))]
fn decimal_unit(letter: u8) -> Option<u64>
    ensures { result ≡ option_map (λ power. 1000 ^ power) (spec.power_of letter) }
{
    match letter {
        b'k' => Some(1_000),
        b'm' => Some(1_000_000),
        b'g' => Some(1_000_000_000),
        b't' => Some(1_000_000_000_000),
        b'p' => Some(1_000_000_000_000_000),
        b'e' => Some(1_000_000_000_000_000_000),
        _ => None,
    }
}

/// The bytes of a unit of powers of 1024, by its letter in small.
#[tactic(auto, unfolding(text_spec::specs::Units::power_of))]
fn binary_unit(letter: u8) -> Option<u64>
    ensures { result ≡ option_map (λ power. 1024 ^ power) (spec.power_of letter) }
{
    match letter {
        b'k' => Some(1 << 10),
        b'm' => Some(1 << 20),
        b'g' => Some(1 << 30),
        b't' => Some(1 << 40),
        b'p' => Some(1 << 50),
        b'e' => Some(1 << 60),
        _ => None,
    }
}

/// The bytes of a unit that begins with a letter.
#[tactic(auto, unfolding(text_spec::specs::Units::base_of))]
fn scaled(unit: &[u8]) -> Option<u64>
    ensures { result ≡ spec.scaled unit.now }
{
    let (letter, rest) = unit.split_first()?;
    if rest.eq_ignore_ascii_case(b"b") {
        decimal_unit(letter.to_ascii_lowercase())
    } else if rest.is_empty() || rest.eq_ignore_ascii_case(b"ib") {
        binary_unit(letter.to_ascii_lowercase())
    } else {
        None
    }
}

/// The bytes of a unit: `b` and `bytes` are 1, `KB` to `EB` powers of 1000, `K` to `E` and `KiB` to
/// `EiB` powers of 1024. Letters may be of either case.
#[tactic(auto, unfolding(text_spec::specs::Units::unit_of))]
pub(crate) fn unit_bytes(unit: &[u8]) -> Option<u64>
    ensures { result ≡ spec.unit_of unit.now }
{
    if unit.eq_ignore_ascii_case(b"b") || unit.eq_ignore_ascii_case(b"bytes") {
        Some(1)
    } else {
        scaled(unit)
    }
}
