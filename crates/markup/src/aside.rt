// What is between tags besides references: comments, instructions, sections and runs of text.
ghost use Rattle.std.specs.Prelude.{◌≡◌, ◌≤◌, ◌<◌, ◌+◌, length, false, IfOk};
ghost use Rattle.std.specs.List.{prefix_len};
ghost use Rattle.text_spec.specs.Character.{is_run_char as spec_is_run_char};
ghost use Rattle.text_spec.specs.Aside as spec;
ghost use Rattle.text_spec.specs.Element.{ahead_of};
ghost use Rattle.text_spec.specs.declared.ahead.Ahead.TheVariants as Ahead;
ghost use Rattle.markup.specs.Gives.{Tells};

use crate::character::{is_blank, is_char};
use crate::scan::{ended, expect, flaw, name_at};
use text_spec::{Flaw, TextKind};

/// What follows a comment, from after its `<!--`.
#[tactic(auto, unfolding(text_spec::specs::Aside::comment_at))]
fn comment_at(told: Flaw, chars: &[char]) -> Result<&[char], Flaw>
    ensures reads { Tells (λ r. r.now) result (spec.comment_at told false chars.now) }
    ensures within { IfOk result (λ r. length r.now ≤ length chars.now) }
{
    let mut hyphened = false;
    let mut rest = chars;
    while let Some((c, after)) = rest.split_first() {
        if hyphened && *c == '-' {
            return expect(told, &['>'], after);
        }
        if !is_char(*c) {
            return Err(told);
        }
        hyphened = *c == '-';
        rest = after;
    }
    Err(ended())
}

/// What follows an instruction, from after its target.
#[tactic(auto, unfolding(text_spec::specs::Aside::instruction_at))]
fn instruction_at(told: Flaw, chars: &[char]) -> Result<&[char], Flaw>
    ensures reads { Tells (λ r. r.now) result (spec.instruction_at told false chars.now) }
    ensures within { IfOk result (λ r. length r.now ≤ length chars.now) }
{
    let mut questioned = false;
    let mut rest = chars;
    while let Some((c, after)) = rest.split_first() {
        if questioned && *c == '>' {
            return Ok(after);
        }
        if !is_char(*c) {
            return Err(told);
        }
        questioned = *c == '?';
        rest = after;
    }
    Err(ended())
}

/// Whether a target is `xml`, in any case.
fn is_reserved(target: &[char]) -> bool
    ensures { result ≡ spec.is_reserved target.now }
{
    match target {
        [x, m, l] => {
            x.to_ascii_lowercase() == 'x'
                && m.to_ascii_lowercase() == 'm'
                && l.to_ascii_lowercase() == 'l'
        }
        _ => false,
    }
}

/// What follows an instruction, from the end of its target.
fn after_target(told: Flaw, chars: &[char]) -> Result<&[char], Flaw>
    ensures reads { Tells (λ r. r.now) result (spec.after_target told chars.now) }
    ensures within { IfOk result (λ r. length r.now ≤ length chars.now) }
{
    match chars {
        [] => Err(ended()),
        ['?', rest @ ..] => expect(told, &['>'], rest),
        [c, rest @ ..] if is_blank(*c) => instruction_at(told, rest),
        _ => Err(told),
    }
}

/// What follows an instruction, from after its `<?`.
#[tactic(auto, unfolding(text_spec::specs::Aside::targeted))]
fn targeted(told: Flaw, chars: &[char]) -> Result<&[char], Flaw>
    ensures reads { Tells (λ r. r.now) result (spec.targeted told chars.now) }
    ensures within { IfOk result (λ r. length r.now ≤ length chars.now) }
{
    let (target, rest) = name_at(told, chars)?;
    if is_reserved(target) {
        return Err(told);
    }
    after_target(told, rest)
}

/// How many closing brackets were passed just before what follows `c`, up to two.
fn brackets_after(brackets: u8, c: char) -> u8
    ensures { result ≡ spec.brackets_after brackets c }
{
    if c != ']' {
        0
    } else if brackets == 0 {
        1
    } else {
        2
    }
}

/// What follows the `]]>` of a section.
#[tactic(auto, unfolding(text_spec::specs::Aside::section_at))]
fn section_at(told: Flaw, chars: &[char]) -> Result<&[char], Flaw>
    ensures reads { Tells (λ r. r.now) result (spec.section_at told 0 chars.now) }
    ensures within { IfOk result (λ r. length r.now + 3 ≤ length chars.now) }
{
    let mut brackets = 0;
    let mut rest = chars;
    while let Some((c, after)) = rest.split_first() {
        if *c == '>' && brackets == 2 {
            return Ok(after);
        }
        if !is_char(*c) {
            return Err(told);
        }
        brackets = brackets_after(brackets, *c);
        rest = after;
    }
    Err(ended())
}

/// What a section holds, and what follows it, from after its `<![`.
#[tactic(auto, unfolding(text_spec::specs::Aside::whole_section_at))]
fn whole_section_at(told: Flaw, chars: &[char]) -> Result<(&[char], &[char]), Flaw>
    ensures reads { Tells (λ r. (r.0.now, r.1.now)) result (spec.whole_section_at told chars.now) }
    ensures within { IfOk result (λ r. length r.1.now ≤ length chars.now) }
{
    let content = expect(told, &['C', 'D', 'A', 'T', 'A', '['], chars)?;
    let rest = section_at(told, content)?;
    let held = content.split_at(content.len() - (rest.len() + 3)).0;
    Ok((held, rest))
}

/// No text, and what follows a comment, from after its `<!-`.
#[tactic(auto, unfolding(text_spec::specs::Aside::whole_comment_at))]
fn whole_comment_at(told: Flaw, chars: &[char]) -> Result<(&[char], &[char]), Flaw>
    ensures reads { Tells (λ r. (r.0.now, r.1.now)) result (spec.whole_comment_at told chars.now) }
    ensures within { IfOk result (λ r. length r.1.now ≤ length chars.now) }
{
    let rest = expect(told, &['-'], chars)?;
    let rest = comment_at(told, rest)?;
    Ok((&[], rest))
}

/// The flaw of a document type, from after its `<!D`.
#[tactic(auto, unfolding(text_spec::specs::Aside::doctype_at))]
fn doctype_at(told: Flaw, doctype: Flaw, chars: &[char]) -> Result<(&[char], &[char]), Flaw>
    ensures reads { Tells (λ r. (r.0.now, r.1.now)) result
        (spec.doctype_at told doctype chars.now) }
    ensures within { IfOk result (λ r. length r.1.now ≤ length chars.now) }
{
    expect(told, &['O', 'C', 'T', 'Y', 'P', 'E'], chars)?;
    Err(doctype)
}

/// The text after `<!`, and what follows it.
#[tactic(auto, unfolding(text_spec::specs::Aside::after_bang))]
fn after_bang<'a>(
    inside: bool,
    start: &[char],
    chars: &'a [char],
) -> Result<(&'a [char], &'a [char]), Flaw>
    ensures reads { Tells (λ r. (r.0.now, r.1.now)) result
        (spec.after_bang inside start.now chars.now) }
    ensures within { IfOk result (λ r. length r.1.now ≤ length chars.now) }
{
    let told = flaw(TextKind::Tag, start);
    match chars {
        [] => Err(ended()),
        ['-', rest @ ..] => whole_comment_at(told, rest),
        ['D', rest @ ..] => doctype_at(told, flaw(TextKind::Doctype, start), rest),
        ['[', rest @ ..] if inside => whole_section_at(told, rest),
        _ => Err(told),
    }
}

/// No text, and what follows an instruction, from after its `<?`.
fn whole_instruction_at(told: Flaw, chars: &[char]) -> Result<(&[char], &[char]), Flaw>
    ensures reads { Tells (λ r. (r.0.now, r.1.now)) result
        (spec.without_text (spec.targeted told chars.now)) }
    ensures within { IfOk result (λ r. length r.1.now ≤ length chars.now) }
{
    let rest = targeted(told, chars)?;
    Ok((&[], rest))
}

/// The text after the `<` of an aside, and what follows it.
fn after_less<'a>(
    inside: bool,
    start: &[char],
    chars: &'a [char],
) -> Result<(&'a [char], &'a [char]), Flaw>
    ensures reads { Tells (λ r. (r.0.now, r.1.now)) result
        (spec.after_less inside start.now chars.now) }
    ensures within { IfOk result (λ r. length r.1.now ≤ length chars.now) }
{
    match chars {
        [] => Err(ended()),
        ['?', rest @ ..] => whole_instruction_at(flaw(TextKind::Tag, start), rest),
        [_, rest @ ..] => after_bang(inside, start, rest),
    }
}

/// The text that a comment, an instruction or a section adds, and what follows it. Sections are
/// only inside an element.
#[tactic(auto, unfolding(text_spec::specs::Aside::aside_at))]
pub(crate) fn aside_at(inside: bool, chars: &[char]) -> Result<(&[char], &[char]), Flaw>
    ensures reads { Tells (λ r. (r.0.now, r.1.now)) result (spec.aside_at inside chars.now) }
    ensures within { IfOk result (λ r. length r.1.now < length chars.now) }
{
    match chars {
        [] => Err(ended()),
        [_, rest @ ..] => after_less(inside, chars, rest),
    }
}

/// Whether `]]>` occurs in these characters.
#[tactic(auto, unfolding(text_spec::specs::Aside::ends_section))]
fn ends_section(chars: &[char]) -> bool
    ensures { result ≡ spec.ends_section 0 chars.now }
{
    let mut brackets = 0;
    let mut rest = chars;
    while let Some((c, after)) = rest.split_first() {
        if *c == '>' && brackets == 2 {
            return true;
        }
        brackets = brackets_after(brackets, *c);
        rest = after;
    }
    false
}

/// How many characters of a run of text are at the front.
fn run_length(chars: &[char]) -> usize
    ensures count { result ≡ prefix_len spec_is_run_char chars.now }
    ensures within { result ≤ length chars.now }
{
    let mut count = 0;
    let mut rest = chars;
    while let Some((c, after)) = rest.split_first() {
        if *c == '<' || *c == '&' || !is_char(*c) {
            break;
        }
        count += 1;
        rest = after;
    }
    count
}

/// The run, which ends before markup or with the text.
fn run_then<'a>(
    told: Flaw,
    run: &'a [char],
    rest: &'a [char],
) -> Result<(&'a [char], &'a [char]), Flaw>
    ensures reads { Tells (λ r. (r.0.now, r.1.now)) result (spec.run_then told run.now rest.now) }
    ensures within { IfOk result (λ r. r.1.now ≡ rest.now) }
{
    match rest {
        [c, ..] if !is_char(*c) => Err(told),
        _ => Ok((run, rest)),
    }
}

/// The run of text at the front, and what follows it.
#[tactic(auto, unfolding(text_spec::specs::Aside::run_at))]
pub(crate) fn run_at(chars: &[char]) -> Result<(&[char], &[char]), Flaw>
    requires { ahead_of chars.now ≡ Ahead.Run }
    ensures reads { Tells (λ r. (r.0.now, r.1.now)) result (spec.run_at chars.now) }
    ensures within { IfOk result (λ r. length r.1.now < length chars.now) }
{
    let told = flaw(TextKind::Tag, chars);
    let (run, rest) = chars.split_at(run_length(chars));
    if ends_section(run) {
        return Err(told);
    }
    run_then(told, run, rest)
}
