// Numbers in words.
ghost use Rattle.std.specs.Prelude.{◌≡◌, ◌<◌, ◌≤◌, ◌^◌, IfSome};
ghost use Rattle.std.specs.List.{list_all};
ghost use Rattle.std.specs.Char.{is_ascii_digit};
ghost use Rattle.command_spec.specs.Reading as spec;
ghost use Rattle.command_spec.specs.declared.limits.TheConstants.{MOST_MEMORY_DIGITS};

/// Whether these are digits.
fn are_digits(word: &[u8]) -> bool
    ensures { result ≡ list_all is_ascii_digit word.now }
{
    word.iter().all(|byte| byte.is_ascii_digit())
}

fn leads_with_zero(word: &[u8]) -> bool
    ensures { result ≡ spec.leads_with_zero word.now }
{
    word.len() > 1 && word[0] == b'0'
}

/// Whether a word is a number of at most so many digits.
fn is_number(word: &str, most: u32) -> bool
    ensures { result ≡ spec.is_number most word.now }
{
    let bytes = word.as_bytes();
    (1..=most as usize).contains(&bytes.len()) && (are_digits(bytes) && !leads_with_zero(bytes))
}

/// The number that a word is, of 1 to `most` decimal digits and without a leading zero.
pub(crate) fn number_of(word: &str, most: u32) -> Option<u64>
    requires { most ≤ MOST_MEMORY_DIGITS }
    ensures value { result ≡ spec.number_of most word.now }
    ensures within { IfSome result (λ number. number < 10 ^ most) }
{
    if is_number(word, most) {
        word.parse().ok()
    } else {
        None
    }
}
