// Numbers of decimal digits.
ghost use Rattle.std.specs.Prelude.{◌≡◌, ◌^◌, ◌<◌, IfSome};
ghost use Rattle.std.specs.List.{list_all};
ghost use Rattle.std.specs.Char.{is_ascii_digit};
ghost use Rattle.text_spec.specs.Units as spec;

/// The most digits of a number.
const MOST_DIGITS: usize = 19;

/// Whether these are digits.
fn are_digits(text: &[u8]) -> bool
    ensures { result ≡ list_all is_ascii_digit text.now }
{
    text.iter().all(|byte| byte.is_ascii_digit())
}

/// Whether a text is a number.
#[tactic(auto, unfolding(text_spec::specs::Units::is_number))]
fn is_number(text: &str) -> bool
    ensures { result ≡ spec.is_number text.now }
{
    (1..=MOST_DIGITS).contains(&text.len()) && are_digits(text.as_bytes())
}

/// The number that a text of 1 to 19 decimal digits is. Leading zeros are allowed.
pub fn read_number(text: &str) -> Option<u64>
    ensures value { result ≡ spec.number_of text.now }
    ensures within { IfSome result (λ number. number < 10 ^ 19) }
{
    if is_number(text) {
        text.parse().ok()
    } else {
        None
    }
}
