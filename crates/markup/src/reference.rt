// References: a number of a character, or one of the five names.
ghost use Rattle.std.specs.Prelude.{◌≡◌, ◌≤◌, ◌<◌, length, false, IfOk, Some, None, if◌then◌else◌};
ghost use Rattle.text_spec.specs.Character.{is_char as spec_is_char};
ghost use Rattle.text_spec.specs.Reference.{number_end as spec_number_end, number_at as spec_number_at, numbered as spec_numbered, named as spec_named, named_a as spec_named_a, after_ampersand as spec_after_ampersand, reference_at as spec_reference_at};
ghost use Rattle.markup.specs.Gives.{Tells};

use crate::character::is_char;
use crate::scan::{ended, expect, flaw};
use text_spec::{Flaw, TextKind};

const GREATEST: u32 = 0x10FFFF;

/// The character of this number, where a text may hold it.
fn character(number: u32) -> Option<char>
    ensures { result ≡ (if spec_is_char number then Some number else None) }
{
    match char::from_u32(number) {
        Some(c) if is_char(c) => Some(c),
        _ => None,
    }
}

/// The number after its last digit, where `;` follows and it is a character's.
fn number_end<'a>(
    told: Flaw,
    number: u32,
    some: bool,
    c: char,
    rest: &'a [char],
) -> Result<(char, &'a [char]), Flaw>
    ensures { Tells (λ r. (r.0, r.1.now)) result (spec_number_end told number some c rest.now) }
{
    if c != ';' || !some {
        return Err(told);
    }
    match character(number) {
        Some(found) => Ok((found, rest)),
        None => Err(told),
    }
}

/// A number in digits of this base.
#[tactic(auto, unfolding(text_spec::specs::Reference::number_at))]
fn number_at(base: u32, told: Flaw, chars: &[char]) -> Result<(char, &[char]), Flaw>
    requires low { 2 ≤ base }
    requires high { base ≤ 16 }
    ensures reads { Tells (λ r. (r.0, r.1.now)) result
        (spec_number_at base told 0 false chars.now) }
    ensures within { IfOk result (λ r. length r.1.now ≤ length chars.now) }
{
    let mut number = 0u32;
    let mut some = false;
    let mut rest = chars;
    while let Some((c, after)) = rest.split_first() {
        let Some(digit) = c.to_digit(base) else {
            return number_end(told, number, some, *c, after);
        };
        let next = base * number + digit;
        if next > GREATEST {
            return Err(told);
        }
        number = next;
        some = true;
        rest = after;
    }
    Err(ended())
}

/// What follows `&#`.
fn numbered(told: Flaw, chars: &[char]) -> Result<(char, &[char]), Flaw>
    ensures reads { Tells (λ r. (r.0, r.1.now)) result (spec_numbered told chars.now) }
    ensures within { IfOk result (λ r. length r.1.now ≤ length chars.now) }
{
    match chars {
        [] => Err(ended()),
        ['x', rest @ ..] => number_at(16, told, rest),
        _ => number_at(10, told, chars),
    }
}

/// The character, where this name comes next.
fn named<'a>(
    told: Flaw,
    character: char,
    name: &[char],
    chars: &'a [char],
) -> Result<(char, &'a [char]), Flaw>
    ensures reads { Tells (λ r. (r.0, r.1.now)) result
        (spec_named told character name.now chars.now) }
    ensures within { IfOk result (λ r. length r.1.now ≤ length chars.now) }
{
    let rest = expect(told, name, chars)?;
    Ok((character, rest))
}

/// What follows `&a`.
fn named_a(told: Flaw, chars: &[char]) -> Result<(char, &[char]), Flaw>
    ensures reads { Tells (λ r. (r.0, r.1.now)) result (spec_named_a told chars.now) }
    ensures within { IfOk result (λ r. length r.1.now ≤ length chars.now) }
{
    match chars {
        [] => Err(ended()),
        ['m', rest @ ..] => named(told, '&', &['p', ';'], rest),
        ['p', rest @ ..] => named(told, '\'', &['o', 's', ';'], rest),
        _ => Err(told),
    }
}

/// What follows an ampersand.
#[tactic(auto, unfolding(text_spec::specs::Reference::after_ampersand))]
fn after_ampersand(told: Flaw, chars: &[char]) -> Result<(char, &[char]), Flaw>
    ensures reads { Tells (λ r. (r.0, r.1.now)) result (spec_after_ampersand told chars.now) }
    ensures within { IfOk result (λ r. length r.1.now ≤ length chars.now) }
{
    match chars {
        [] => Err(ended()),
        ['#', rest @ ..] => numbered(told, rest),
        ['a', rest @ ..] => named_a(told, rest),
        ['l', rest @ ..] => named(told, '<', &['t', ';'], rest),
        ['g', rest @ ..] => named(told, '>', &['t', ';'], rest),
        ['q', rest @ ..] => named(told, '"', &['u', 'o', 't', ';'], rest),
        _ => Err(told),
    }
}

/// The character that the reference at the front stands for, and what follows it.
#[tactic(auto, unfolding(text_spec::specs::Reference::reference_at))]
pub(crate) fn reference_at(chars: &[char]) -> Result<(char, &[char]), Flaw>
    ensures reads { Tells (λ r. (r.0, r.1.now)) result (spec_reference_at chars.now) }
    ensures within { IfOk result (λ r. length r.1.now < length chars.now) }
{
    match chars {
        [] => Err(ended()),
        [_, rest @ ..] => after_ampersand(flaw(TextKind::Reference, chars), rest),
    }
}
