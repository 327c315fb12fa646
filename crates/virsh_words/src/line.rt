// The parts of a command line, from its front. Each step takes what is left and gives what is left
// after it.
ghost use Rattle.std.specs.Prelude.{◌≡◌, ◌==◌, ◌≤◌, ◌<◌, ◌^◌, length, map, IfOk};
ghost use Rattle.std.specs.String.{string_bytes};
ghost use Rattle.command_spec.specs.Reading as spec;
ghost use Rattle.command_spec.specs.declared.limits.TheConstants.{MOST_MEMORY_DIGITS};
ghost use Rattle.virsh_words.specs.Rest.{IsNext, Passes, Slices, SlicesOption, SlicesTwo, Steps, seen};

use crate::number::number_of;
use crate::rest::Rest;
use command_spec::{Flag, Form, MOST_WORD_BYTES, WordFault};

fn is_option(word: &str) -> bool
    ensures { result ≡ spec.is_option word.now }
{
    let bytes = word.as_bytes();
    bytes.len() >= 2 && (bytes[0] == b'-' && bytes[1] == b'-')
}

fn is_plain(word: &str) -> bool
    ensures { result ≡ spec.is_plain word.now }
{
    !is_option(word) && word.len() as u64 <= MOST_WORD_BYTES
}

fn is_allowed(allowed: Option<Flag>, word: &str) -> bool
    ensures { result ≡ spec.is_allowed allowed word.now }
{
    match allowed {
        Some(flag) => flag.word() == word,
        None => false,
    }
}

/// The words, of which none was read yet.
pub(crate) fn all_of(words: &[String]) -> Rest<'_>
    ensures { seen result ≡ spec.all_of (map string_bytes words.now) }
{
    Rest {
        words,
        place: 0,
        allowed: None,
        given: None,
    }
}

/// The first word that is left, and what is left after it.
fn next(rest: Rest<'_>) -> Option<(&str, Rest<'_>)>
    ensures { IsNext (seen rest.entry) result }
{
    match rest.words.split_first() {
        Some((word, words)) => {
            let behind = Rest {
                words,
                place: rest.place + 1,
                allowed: rest.allowed,
                given: rest.given,
            };
            Some((word.as_str(), behind))
        }
        None => None,
    }
}

fn misfit(rest: Rest<'_>) -> WordFault
    ensures { result ≡ spec.misfit (seen rest.entry) }
{
    WordFault { at: rest.place }
}

/// Passes over the option that may still come, where the next word is an option.
#[tactic(auto, unfolding(command_spec::specs::Reading::after_option))]
fn after_option(rest: Rest<'_>) -> Result<Rest<'_>, WordFault>
    ensures { Passes (spec.after_option (seen rest.entry)) result }
{
    match next(rest) {
        Some((word, behind)) => {
            if !is_option(word) {
                return Ok(rest);
            }
            if !is_allowed(rest.allowed, word) {
                return Err(misfit(rest));
            }
            Ok(Rest {
                words: behind.words,
                place: behind.place,
                allowed: None,
                given: rest.allowed,
            })
        }
        None => Ok(rest),
    }
}

/// The next word, which has to be plain.
fn plain(rest: Rest<'_>) -> Result<(&str, Rest<'_>), WordFault>
    ensures { Slices (spec.plain_in (map string_bytes rest.entry.words.now) (seen rest.entry)) result }
{
    match next(rest) {
        Some((word, behind)) => {
            if is_plain(word) {
                Ok((word, behind))
            } else {
                Err(misfit(rest))
            }
        }
        None => Err(misfit(rest)),
    }
}

/// The next word that is no option.
#[tactic(auto, unfolding(command_spec::specs::Reading::first_word))]
pub(crate) fn word(rest: Rest<'_>) -> Result<(&str, Rest<'_>), WordFault>
    ensures { Slices (spec.first_word (seen rest.entry)) result }
{
    let rest = after_option(rest)?;
    plain(rest)
}

/// The next two words that are no options.
#[tactic(auto, unfolding(command_spec::specs::Reading::first_two))]
pub(crate) fn two_words(rest: Rest<'_>) -> Result<((&str, &str), Rest<'_>), WordFault>
    ensures { SlicesTwo (spec.first_two (seen rest.entry)) result }
{
    let (one, rest) = word(rest)?;
    let (other, rest) = word(rest)?;
    Ok(((one, other), rest))
}

/// The next word that is no option, which has to be a number of at most so many digits.
#[tactic(auto, unfolding(command_spec::specs::Reading::first_number))]
pub(crate) fn number(rest: Rest<'_>, most: u32) -> Result<(u64, Rest<'_>), WordFault>
    requires { most ≤ MOST_MEMORY_DIGITS }
    ensures read { Steps (spec.first_number most (seen rest.entry)) result }
    ensures within { IfOk result (λ x. x.0 < 10 ^ most) }
{
    let rest = after_option(rest)?;
    let (word, behind) = plain(rest)?;
    match number_of(word, most) {
        Some(number) => Ok((number, behind)),
        None => Err(misfit(rest)),
    }
}

/// The address, where `-c` comes first.
#[tactic(auto, unfolding(command_spec::specs::Reading::first_address))]
pub(crate) fn address(rest: Rest<'_>) -> Result<(Option<&str>, Rest<'_>), WordFault>
    ensures { SlicesOption (spec.first_address (seen rest.entry)) result }
{
    match next(rest) {
        Some((word, behind)) => {
            if word != "-c" {
                return Ok((None, rest));
            }
            let (address, rest) = plain(behind)?;
            Ok((Some(address), rest))
        }
        None => Ok((None, rest)),
    }
}

/// The word of a command, after which its option may come.
#[tactic(auto, unfolding(command_spec::specs::Reading::first_form))]
pub(crate) fn form(rest: Rest<'_>) -> Result<(Form, Rest<'_>), WordFault>
    ensures { Steps (spec.first_form (seen rest.entry)) result }
{
    match next(rest) {
        Some((word, behind)) => match Form::of_word(word) {
            Some(form) => Ok((
                form,
                Rest {
                    words: behind.words,
                    place: behind.place,
                    allowed: form.option(),
                    given: None,
                },
            )),
            None => Err(misfit(rest)),
        },
        None => Err(misfit(rest)),
    }
}

/// Whether no word is left.
pub(crate) fn is_over(rest: Rest<'_>) -> bool
    ensures { result ≡ (length (map string_bytes rest.entry.words.now) == 0) }
{
    rest.words.is_empty()
}

/// The option that came, where nothing else is left.
#[tactic(auto, unfolding(command_spec::specs::Reading::ended))]
pub(crate) fn ended(rest: Rest<'_>) -> Result<Option<Flag>, WordFault>
    ensures { result ≡ spec.ended (seen rest.entry) }
{
    let rest = after_option(rest)?;
    if is_over(rest) {
        Ok(rest.given)
    } else {
        Err(misfit(rest))
    }
}
