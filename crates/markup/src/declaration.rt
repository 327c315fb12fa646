// The XML declaration, which may come at the very front.
ghost use Rattle.std.specs.Prelude.{◌≡◌, ◌≤◌, length, IfOk};
ghost use Rattle.text_spec.specs.Declaration as spec;
ghost use Rattle.markup.specs.Gives.{Tells};

use crate::scan::{ended, expect, flaw, skip_blanks, starts_blank};
use text_spec::{Flaw, TextKind};

/// What follows this word of small letters, in either case.
#[tactic(auto, unfolding(text_spec::specs::Declaration::expect_in_any_case))]
fn expect_in_any_case<'a>(told: Flaw, word: &[char], chars: &'a [char]) -> Result<&'a [char], Flaw>
    ensures reads { Tells (λ r. r.now) result (spec.expect_in_any_case told word.now chars.now) }
    ensures within { IfOk result (λ r. length r.now ≤ length chars.now) }
{
    let mut left = word;
    let mut rest = chars;
    while let Some((wanted, more)) = left.split_first() {
        let Some((found, after)) = rest.split_first() else {
            return Err(ended());
        };
        if found.to_ascii_lowercase() != *wanted {
            return Err(told);
        }
        left = more;
        rest = after;
    }
    Ok(rest)
}

/// What follows an equals sign, and the blanks around it.
#[tactic(auto, unfolding(text_spec::specs::Declaration::equals_at))]
pub(crate) fn equals_at(told: Flaw, chars: &[char]) -> Result<&[char], Flaw>
    ensures reads { Tells (λ r. r.now) result (spec.equals_at told chars.now) }
    ensures within { IfOk result (λ r. length r.now ≤ length chars.now) }
{
    let rest = expect(told, &['='], skip_blanks(chars))?;
    Ok(skip_blanks(rest))
}

/// The quote at the front, and what follows it.
pub(crate) fn quote_at(told: Flaw, chars: &[char]) -> Result<(char, &[char]), Flaw>
    ensures reads { Tells (λ r. (r.0, r.1.now)) result (spec.quote_at told chars.now) }
    ensures within { IfOk result (λ r. length r.1.now ≤ length chars.now) }
{
    match chars {
        [] => Err(ended()),
        [quote, rest @ ..] if *quote == '"' || *quote == '\'' => Ok((*quote, rest)),
        _ => Err(told),
    }
}

/// What follows a name and an equals sign.
#[tactic(auto, unfolding(text_spec::specs::Declaration::named_at))]
fn named_at<'a>(told: Flaw, name: &[char], chars: &'a [char]) -> Result<&'a [char], Flaw>
    ensures reads { Tells (λ r. r.now) result (spec.named_at told name.now chars.now) }
    ensures within { IfOk result (λ r. length r.now ≤ length chars.now) }
{
    let rest = expect(told, name, chars)?;
    equals_at(told, rest)
}

/// What follows the version.
#[tactic(auto, unfolding(text_spec::specs::Declaration::version_at))]
fn version_at(told: Flaw, chars: &[char]) -> Result<&[char], Flaw>
    ensures reads { Tells (λ r. r.now) result (spec.version_at told chars.now) }
    ensures within { IfOk result (λ r. length r.now ≤ length chars.now) }
{
    let rest = named_at(told, &['v', 'e', 'r', 's', 'i', 'o', 'n'], chars)?;
    let (quote, rest) = quote_at(told, rest)?;
    let rest = expect(told, &['1', '.', '0'], rest)?;
    expect(told, &[quote], rest)
}

/// What follows the encoding.
#[tactic(auto, unfolding(text_spec::specs::Declaration::encoding_at))]
fn encoding_at(told: Flaw, chars: &[char]) -> Result<&[char], Flaw>
    ensures reads { Tells (λ r. r.now) result (spec.encoding_at told chars.now) }
    ensures within { IfOk result (λ r. length r.now ≤ length chars.now) }
{
    let rest = named_at(told, &['e', 'n', 'c', 'o', 'd', 'i', 'n', 'g'], chars)?;
    let (quote, rest) = quote_at(told, rest)?;
    let rest = expect_in_any_case(told, &['u', 't', 'f', '-', '8'], rest)?;
    expect(told, &[quote], rest)
}

/// What follows `yes` or `no`.
fn yes_or_no(told: Flaw, chars: &[char]) -> Result<&[char], Flaw>
    ensures reads { Tells (λ r. r.now) result (spec.yes_or_no told chars.now) }
    ensures within { IfOk result (λ r. length r.now ≤ length chars.now) }
{
    match chars {
        [] => Err(ended()),
        ['y', rest @ ..] => expect(told, &['e', 's'], rest),
        _ => expect(told, &['n', 'o'], chars),
    }
}

/// What follows `standalone`.
#[tactic(auto, unfolding(text_spec::specs::Declaration::standalone_at))]
fn standalone_at(told: Flaw, chars: &[char]) -> Result<&[char], Flaw>
    ensures reads { Tells (λ r. r.now) result (spec.standalone_at told chars.now) }
    ensures within { IfOk result (λ r. length r.now ≤ length chars.now) }
{
    let name = &['s', 't', 'a', 'n', 'd', 'a', 'l', 'o', 'n', 'e'];
    let rest = named_at(told, name, chars)?;
    let (quote, rest) = quote_at(told, rest)?;
    let rest = yes_or_no(told, rest)?;
    expect(told, &[quote], rest)
}

/// What follows the encoding, if there is one after a blank.
#[tactic(auto, unfolding(text_spec::specs::Declaration::after_encoding))]
fn after_encoding(told: Flaw, chars: &[char]) -> Result<&[char], Flaw>
    ensures reads { Tells (λ r. r.now) result (spec.after_encoding told chars.now) }
    ensures within { IfOk result (λ r. length r.now ≤ length chars.now) }
{
    let rest = skip_blanks(chars);
    match rest {
        ['e', ..] if starts_blank(chars) => encoding_at(told, rest),
        _ => Ok(chars),
    }
}

/// What follows the standalone declaration, if there is one after a blank.
#[tactic(auto, unfolding(text_spec::specs::Declaration::after_standalone))]
fn after_standalone(told: Flaw, chars: &[char]) -> Result<&[char], Flaw>
    ensures reads { Tells (λ r. r.now) result (spec.after_standalone told chars.now) }
    ensures within { IfOk result (λ r. length r.now ≤ length chars.now) }
{
    let rest = skip_blanks(chars);
    match rest {
        ['s', ..] if starts_blank(chars) => standalone_at(told, rest),
        _ => Ok(chars),
    }
}

/// What follows the declaration, from after its `<?xml`.
#[tactic(auto, unfolding(text_spec::specs::Declaration::declaration_at))]
fn declaration_at(told: Flaw, chars: &[char]) -> Result<&[char], Flaw>
    ensures reads { Tells (λ r. r.now) result (spec.declaration_at told chars.now) }
    ensures within { IfOk result (λ r. length r.now ≤ length chars.now) }
{
    let rest = version_at(told, skip_blanks(chars))?;
    let rest = after_encoding(told, rest)?;
    let rest = after_standalone(told, rest)?;
    expect(told, &['?', '>'], skip_blanks(rest))
}

/// What follows the declaration, if there is one.
#[tactic(auto, unfolding(text_spec::specs::Declaration::after_declaration))]
pub(crate) fn after_declaration(chars: &[char]) -> Result<&[char], Flaw>
    ensures reads { Tells (λ r. r.now) result (spec.after_declaration chars.now) }
    ensures within { IfOk result (λ r. length r.now ≤ length chars.now) }
{
    match expect(ended(), &['<', '?', 'x', 'm', 'l'], chars) {
        Ok(rest) if starts_blank(rest) => declaration_at(flaw(TextKind::Tag, chars), rest),
        _ => Ok(chars),
    }
}
