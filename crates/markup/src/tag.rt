// Tags, with their attributes.
ghost use Rattle.std.specs.Prelude.{◌≡◌, ℕ, ◌≤◌, ◌<◌, ◌+◌, List, [], ◌∷◌, length, IfOk, IfSome, option_map, encode_utf8_all};
ghost use Rattle.text_spec.specs.Tag as spec;
ghost use Rattle.types_base.specs.Memory.{UnlessNoMemory};
ghost use Rattle.markup.specs.Gives.{Tells, viewed};
ghost use Rattle.markup.specs.Names.{Holds};
ghost use Rattle.markup.specs.View.{tag_view, attribute_view};

use crate::character::is_char;
use crate::declaration::{equals_at, quote_at};
use crate::names::add_name;
use crate::reference::reference_at;
use crate::scan::{after, ended, expect, flaw, name_at, skip_blanks, starts_blank};
use std::alloc::Global;
use std::collections::BTreeSet;
use text_spec::{Flaw, Pair, PairList, TextKind};
use types_base::{NoMemory, OrNoMemory, Text};

/// An opening tag, or one of an empty element.
#[derive(Drop)]
pub(crate) struct Tag<'a> {
    pub(crate) name: &'a [char],
    pub(crate) attributes: PairList,
    pub(crate) is_empty: bool,
}

/// The text of these characters.
pub(crate) fn text_of(alloc: Global, chars: &[char]) -> Result<Text, NoMemory>
    ensures { IfOk result (λ t. t ≡ encode_utf8_all chars.now) }
{
    let text: String = chars.iter().copied().collect(alloc)?;
    Ok(Text::of(text))
}

/// A character of a value, itself or by a reference, and what follows it.
#[tactic(auto, unfolding(text_spec::specs::Tag::value_char_at))]
fn value_char_at(told: Flaw, chars: &[char]) -> Result<(char, &[char]), Flaw>
    ensures reads { Tells (λ r. (r.0, r.1.now)) result (spec.value_char_at told chars.now) }
    ensures within { IfOk result (λ r. length r.1.now < length chars.now) }
{
    match chars {
        [] => Err(ended()),
        ['&', ..] => reference_at(chars),
        [c, rest @ ..] if *c != '<' && is_char(*c) => Ok((*c, rest)),
        _ => Err(told),
    }
}

/// The value up to this quote, and what follows the quote.
fn value_at<'a>(
    alloc: Global,
    told: Flaw,
    quote: char,
    chars: &'a [char],
) -> Result<(Vec<char>, &'a [char]), OrNoMemory<Flaw>>
    ensures reads { UnlessNoMemory (viewed (λ r. (r.0.items, r.1.now)) result)
        (spec.value_at (length chars.now) told quote chars.now) }
    ensures within { IfOk result (λ r. length r.1.now ≤ length chars.now) }
{
    let mut found = Vec::new(alloc);
    let mut rest = chars;
    while let Some((c, after)) = rest.split_first() {
        if *c == quote {
            return Ok((found, after));
        }
        let (next, following) = match value_char_at(told, rest) {
            Ok(read) => read,
            Err(flaw) => return Err(OrNoMemory::Fault(flaw)),
        };
        found.push(next)?;
        rest = following;
    }
    Err(OrNoMemory::Fault(ended()))
}

/// The value in quotes of either kind.
#[tactic(auto, unfolding(text_spec::specs::Tag::quoted_at))]
fn quoted_at<'a>(
    alloc: Global,
    told: Flaw,
    chars: &'a [char],
) -> Result<(Vec<char>, &'a [char]), OrNoMemory<Flaw>>
    ensures reads { UnlessNoMemory (viewed (λ r. (r.0.items, r.1.now)) result) (spec.quoted_at told chars.now) }
    ensures within { IfOk result (λ r. length r.1.now ≤ length chars.now) }
{
    let (quote, rest) = quote_at(told, chars)?;
    value_at(alloc, told, quote, rest)
}

/// An attribute, and what follows it.
#[derive(Drop)]
pub(crate) struct Attribute<'a> {
    pub(crate) name: &'a [char],
    pub(crate) value: Vec<char>,
    pub(crate) rest: &'a [char],
}

/// The attribute of this name, from after the name.
#[tactic(auto, unfolding(text_spec::specs::Tag::valued_at))]
fn valued_at<'a>(
    alloc: Global,
    told: Flaw,
    name: &'a [char],
    chars: &'a [char],
) -> Result<Attribute<'a>, OrNoMemory<Flaw>>
    ensures reads { UnlessNoMemory (viewed attribute_view result) (spec.valued_at told name.now chars.now) }
    ensures name { IfOk result (λ a. a.name.now ≡ name.now) }
    ensures within { IfOk result (λ a. length a.rest.now ≤ length chars.now) }
{
    let after = equals_at(told, chars)?;
    let (value, rest) = quoted_at(alloc, told, after)?;
    Ok(Attribute { name, value, rest })
}

/// The attribute at the front, whose name is new among these.
#[tactic(auto, unfolding(text_spec::specs::Tag::attribute_at))]
fn attribute_at<'a>(
    alloc: Global,
    told: Flaw,
    names: &mut BTreeSet<&'a [char]>,
    chars: &'a [char],
) -> Result<Attribute<'a>, OrNoMemory<Flaw>>
    ensures reads { (seen : List (List ℕ)) → Holds names.old seen
        → UnlessNoMemory (viewed attribute_view result) (spec.attribute_at told seen chars.now) }
    ensures names { IfOk result (λ a. (seen : List (List ℕ)) → Holds names.old seen
        → Holds names.new (a.name.now ∷ seen)) }
    ensures within { IfOk result (λ a. length a.rest.now < length chars.now) }
{
    let (name, rest) = name_at(told, chars)?;
    if !add_name(names, name)? {
        return Err(OrNoMemory::Fault(told));
    }
    valued_at(alloc, told, name, rest)
}

/// The name and the value as texts.
fn pair_of(alloc: Global, attribute: &Attribute<'_>) -> Result<Pair, NoMemory>
    ensures { IfOk result (λ p. p ≡ spec.attribute_of (attribute_view attribute.now).0) }
{
    let name = text_of(alloc, attribute.name)?;
    let value = text_of(alloc, attribute.value.as_slice())?;
    Ok(Pair { name, value })
}

/// The end of a tag, where it comes next: whether it is `/>`, and what follows it.
#[tactic(auto, unfolding(text_spec::specs::Tag::tag_end_at))]
fn tag_end_at(told: Flaw, chars: &[char]) -> Result<Option<(bool, &[char])>, Flaw>
    ensures reads { Tells (λ end. option_map (λ e. (e.0, e.1.now)) end) result
        (spec.tag_end_at told chars.now) }
    ensures within { IfOk result (λ end. IfSome end (λ e. length e.1.now ≤ length chars.now)) }
{
    match chars {
        [] => Err(ended()),
        ['>', rest @ ..] => Ok(Some((false, rest))),
        ['/', rest @ ..] => {
            let rest = expect(told, &['>'], rest)?;
            Ok(Some((true, rest)))
        }
        _ => Ok(None),
    }
}

/// The attributes of the tag that begins at `start`, whether it ends by `/>`, and what follows it.
fn attributes_at<'a>(
    alloc: Global,
    start: &[char],
    chars: &'a [char],
) -> Result<(PairList, bool, &'a [char]), OrNoMemory<Flaw>>
    ensures reads { UnlessNoMemory (viewed (λ r. ((r.0, r.1), r.2.now)) result)
        (spec.attributes_at (length chars.now + 1) start.now [] chars.now) }
    ensures within { IfOk result (λ r. length r.2.now ≤ length chars.now) }
{
    let tag = flaw(TextKind::Tag, start);
    let told = flaw(TextKind::Attribute, start);
    let mut names = BTreeSet::new(alloc);
    let mut found = PairList::new(alloc);
    let mut rest = chars;
    'tag: loop {
        let after = skip_blanks(rest);
        match tag_end_at(tag, after) {
            Err(flaw) => return Err(OrNoMemory::Fault(flaw)),
            Ok(Some((is_empty, following))) => return Ok((found, is_empty, following)),
            Ok(None) => {}
        }
        if !starts_blank(rest) {
            return Err(OrNoMemory::Fault(tag));
        }
        let attribute = match attribute_at(alloc, told, &mut names, after) {
            Ok(attribute) => attribute,
            Err(stop) => return Err(stop),
        };
        found.push(pair_of(alloc, &attribute)?)?;
        rest = attribute.rest;
    }
}

/// The opening tag at the front, and what follows it.
#[tactic(auto, unfolding(text_spec::specs::Tag::opening_tag_at))]
pub(crate) fn opening_tag_at<'a>(
    alloc: Global,
    start: &'a [char],
) -> Result<(Tag<'a>, &'a [char]), OrNoMemory<Flaw>>
    ensures reads { UnlessNoMemory (viewed (λ r. (tag_view r.0, r.1.now)) result) (spec.opening_tag_at start.now) }
    ensures within { IfOk result (λ r. length r.1.now < length start.now) }
{
    let (name, rest) = name_at(flaw(TextKind::Tag, start), after(1, start))?;
    let (attributes, is_empty, rest) = attributes_at(alloc, start, rest)?;
    let tag = Tag {
        name,
        attributes,
        is_empty,
    };
    Ok((tag, rest))
}

/// What follows the closing tag of the element of this name.
#[tactic(auto, unfolding(text_spec::specs::Tag::closing_tag_at))]
pub(crate) fn closing_tag_at<'a>(name: &[char], start: &'a [char]) -> Result<&'a [char], Flaw>
    ensures reads { Tells (λ r. r.now) result (spec.closing_tag_at name.now start.now) }
    ensures within { IfOk result (λ r. length r.now ≤ length start.now) }
{
    let told = flaw(TextKind::Tag, start);
    let rest = expect(told, name, after(2, start))?;
    expect(told, &['>'], skip_blanks(rest))
}
