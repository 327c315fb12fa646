// The steps that every reader takes: blanks, words that must come next, names.
ghost use Rattle.std.specs.Prelude.{◌≡◌, ◌≤◌, ◌<◌, ◌+◌, length, drop, IfOk};
ghost use Rattle.std.specs.List.{prefix_len};
ghost use Rattle.text_spec.specs.Character.{is_name_char as spec_is_name_char, after_blanks, starts_blank as spec_starts_blank};
ghost use Rattle.text_spec.specs.Reading.{flaw as spec_flaw, ended as spec_ended, expect as spec_expect};
ghost use Rattle.text_spec.specs.Name.{front as spec_front, name_at as spec_name_at};
ghost use Rattle.markup.specs.Gives.{Tells};

use crate::character::{is_blank, is_name_char, is_name_start};
use text_spec::{Flaw, TextKind};

/// A flaw at the first of these characters.
pub(crate) fn flaw(kind: TextKind, chars: &[char]) -> Flaw
    ensures { result ≡ spec_flaw kind chars.now }
{
    Flaw {
        left: chars.len(),
        kind,
    }
}

/// The text ends where more could make it a whole one.
pub(crate) fn ended() -> Flaw
    ensures { result ≡ spec_ended }
{
    Flaw {
        left: 0,
        kind: TextKind::End,
    }
}

/// How many characters of a name are at the front.
fn name_length(chars: &[char]) -> usize
    ensures count { result ≡ prefix_len spec_is_name_char chars.now }
    ensures within { result ≤ length chars.now }
{
    let mut count = 0;
    let mut rest = chars;
    while let Some((c, after)) = rest.split_first() {
        if !is_name_char(*c) {
            break;
        }
        count += 1;
        rest = after;
    }
    count
}

/// The characters after the blanks at the front.
#[tactic(auto, unfolding(text_spec::specs::Character::after_blanks))]
pub(crate) fn skip_blanks(chars: &[char]) -> &[char]
    ensures value { result.now ≡ after_blanks chars.now }
    ensures within { length result.now ≤ length chars.now }
{
    let mut rest = chars;
    while let Some((c, after)) = rest.split_first() {
        if !is_blank(*c) {
            break;
        }
        rest = after;
    }
    rest
}

/// Whether a blank is at the front.
pub(crate) fn starts_blank(chars: &[char]) -> bool
    ensures { result ≡ spec_starts_blank chars.now }
{
    match chars {
        [] => false,
        [c, ..] => is_blank(*c),
    }
}

/// What follows this word at the front.
#[tactic(auto, unfolding(text_spec::specs::Reading::expect))]
pub(crate) fn expect<'a>(told: Flaw, word: &[char], chars: &'a [char]) -> Result<&'a [char], Flaw>
    ensures reads { Tells (λ r. r.now) result (spec_expect told word.now chars.now) }
    ensures within { IfOk result (λ r. length r.now ≤ length chars.now) }
{
    let mut left = word;
    let mut rest = chars;
    while let Some((wanted, more)) = left.split_first() {
        let Some((found, after)) = rest.split_first() else {
            return Err(ended());
        };
        if *found != *wanted {
            return Err(told);
        }
        left = more;
        rest = after;
    }
    Ok(rest)
}

/// The first so many characters, after which the text goes on, and what follows them.
fn front(count: usize, chars: &[char]) -> Result<(&[char], &[char]), Flaw>
    requires { count ≤ length chars.now }
    ensures reads { Tells (λ r. (r.0.now, r.1.now)) result (spec_front count chars.now) }
    ensures within { IfOk result (λ r. length r.1.now + count ≡ length chars.now) }
{
    if count < chars.len() {
        Ok(chars.split_at(count))
    } else {
        Err(ended())
    }
}

/// The name at the front, and what follows it.
#[tactic(auto, unfolding(text_spec::specs::Name::name_at, text_spec::specs::Character::is_name_char))]
pub(crate) fn name_at(told: Flaw, chars: &[char]) -> Result<(&[char], &[char]), Flaw>
    ensures reads { Tells (λ r. (r.0.now, r.1.now)) result (spec_name_at told chars.now) }
    ensures within { IfOk result (λ r. length r.1.now < length chars.now) }
{
    match chars {
        [] => Err(ended()),
        [first, ..] => {
            if !is_name_start(*first) {
                return Err(told);
            }
            front(name_length(chars), chars)
        }
    }
}

/// What follows the first so many characters.
pub(crate) fn after(count: usize, chars: &[char]) -> &[char]
    ensures value { result.now ≡ drop count chars.now }
    ensures within { length result.now ≤ length chars.now }
{
    if count < chars.len() {
        chars.split_at(count).1
    } else {
        &[]
    }
}
