// A line of the configuration.
ghost use Rattle.std.specs.Prelude.{◌≡◌, ◌≤◌, IfSome};
ghost use Rattle.std.specs.Str.{bytes_eq};
ghost use Rattle.std.specs.Fmt.{decimal};
ghost use Rattle.daemon_settings.specs.Lines as spec;

use crate::settings::MOST_SESSIONS;
use itoa::Buffer;

// Whether the digits spell this number, as numbers are written.
fn is_written(number: u32, digits: &[u8]) -> bool
    ensures { result ≡ bytes_eq (decimal number) digits.now }
{
    let mut buffer = Buffer::new();
    buffer.format(number).as_bytes() == digits
}

#[tactic(auto, unfolding(crate::specs::Lines::number_in))]
fn number_in(digits: &[u8]) -> Option<u32>
    ensures { result ≡ spec.number_in digits.now }
{
    (1..MOST_SESSIONS + 1).find(|number| is_written(*number, digits))
}

fn says_nothing(line: &[u8]) -> bool
    ensures { result ≡ spec.says_nothing line.now }
{
    match line {
        [] => true,
        [letter, ..] => *letter == b'#',
    }
}

/// The number of sessions that a line gives.
#[tactic(auto, unfolding(crate::specs::Lines::sessions_in))]
pub(crate) fn sessions_in(line: &[u8]) -> Option<u32>
    ensures { result ≡ spec.sessions_in line.now }
{
    match line.strip_prefix(b"max_sessions = ".as_slice()) {
        Some(digits) => number_in(digits),
        None => None,
    }
}

/// Whether a line is in a form that a line may have.
pub(crate) fn has_form(line: &[u8]) -> bool
    ensures { result ≡ spec.has_form line.now }
{
    says_nothing(line) || sessions_in(line).is_some()
}
