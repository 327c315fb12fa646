// Elements with what is in them.
ghost use Rattle.std.specs.Prelude.{◌≡◌, ℕ, ◌≤◌, ◌<◌, ◌+◌, ◌++◌, [], length, IfOk, OnOk};
ghost use Rattle.text_spec.specs.Element as spec;
ghost use Rattle.text_spec.specs.Tree.{seen, all_seen, none};
ghost use Rattle.text_spec.specs.declared.ahead.Ahead.TheVariants as Ahead;
ghost use Rattle.types_base.specs.Memory.{UnlessNoMemory};
ghost use Rattle.markup.specs.Gives.{Tells, viewed};
ghost use Rattle.markup.specs.View.{IsText, tag_view, piece_text, inside_view, grown_view};

use crate::aside::{aside_at, run_at};
use crate::character::is_blank;
use crate::reference::reference_at;
use crate::scan::{ended, flaw, skip_blanks};
use crate::tag::{Tag, closing_tag_at, opening_tag_at, text_of};
use std::alloc::Global;
use text_spec::{Ahead, Flaw, TextKind, Tree, TreeList};
use types_base::{NoMemory, OrNoMemory};

/// What begins here.
#[tactic(auto, unfolding(text_spec::specs::Element::ahead_of))]
pub(crate) fn ahead_of(chars: &[char]) -> Ahead
    ensures { result ≡ spec.ahead_of chars.now }
{
    match chars {
        [] | ['<'] => Ahead::Nothing,
        ['<', '/', ..] => Ahead::ClosingTag,
        ['<', '!' | '?', ..] => Ahead::Aside,
        ['<', ..] => Ahead::Element,
        ['&', ..] => Ahead::Reference,
        _ => Ahead::Run,
    }
}

/// The characters without the blanks at both ends.
#[tactic(auto, unfolding(text_spec::specs::Element::trimmed))]
fn trimmed(chars: &[char]) -> &[char]
    ensures { result.now ≡ spec.trimmed chars.now }
{
    let mut rest = skip_blanks(chars);
    while let Some((c, before)) = rest.split_last() {
        if !is_blank(*c) {
            break;
        }
        rest = before;
    }
    rest
}

/// Text of an element at one place.
#[derive(Clone, Copy)]
pub(crate) enum Piece<'a> {
    /// A character by its reference.
    One(char),
    /// A run of text, or what a section holds.
    Many(&'a [char]),
}

/// The text at the front, which begins in this way, and what follows it.
#[tactic(auto, unfolding(text_spec::specs::Element::piece_at))]
fn piece_at(ahead: Ahead, chars: &[char]) -> Result<(Piece<'_>, &[char]), Flaw>
    requires begins { spec.ahead_of chars.now ≡ ahead }
    requires text { IsText ahead }
    ensures reads { Tells (λ r. (piece_text r.0, r.1.now)) result (spec.piece_at ahead chars.now) }
    ensures within { IfOk result (λ r. length r.1.now < length chars.now) }
{
    match ahead {
        Ahead::Aside => {
            let (text, rest) = aside_at(true, chars)?;
            Ok((Piece::Many(text), rest))
        }
        Ahead::Reference => {
            let (c, rest) = reference_at(chars)?;
            Ok((Piece::One(c), rest))
        }
        Ahead::Run => {
            let (text, rest) = run_at(chars)?;
            Ok((Piece::Many(text), rest))
        }
        Ahead::Nothing | Ahead::ClosingTag | Ahead::Element => unreachable!(),
    }
}

/// Adds a piece to the text of an element.
fn add_piece(text: &mut Vec<char>, piece: Piece<'_>) -> Result<(), NoMemory>
    ensures { OnOk result (text.new.items ≡ text.old.items ++ piece_text piece.entry) }
{
    match piece {
        Piece::One(c) => text.push(c)?,
        Piece::Many(chars) => text.extend_from_slice(chars)?,
    }
    Ok(())
}

/// What is inside an element, and what follows it.
#[derive(Drop)]
pub(crate) struct Inside<'a> {
    pub(crate) text: Vec<char>,
    pub(crate) children: TreeList,
    pub(crate) room: usize,
    pub(crate) rest: &'a [char],
}

/// An element, the room for further ones, and what follows it.
#[derive(Drop)]
pub(crate) struct Grown<'a> {
    pub(crate) tree: Tree,
    pub(crate) room: usize,
    pub(crate) rest: &'a [char],
}

/// The element of a tag.
fn tree_of(alloc: Global, tag: Tag<'_>, text: &[char], children: TreeList) -> Result<Tree, NoMemory>
    ensures { IfOk result (λ t. seen t
        ≡ spec.tree_of (tag_view tag.entry) text.now (all_seen children.items)) }
{
    let name = text_of(alloc, tag.name)?;
    let text = text_of(alloc, trimmed(text))?;
    Ok(Tree {
        name,
        attributes: tag.attributes,
        text,
        children,
    })
}

/// What is inside an element up to its closing tag, where so many levels may follow.
#[cycle(element)]
fn content_at<'a>(
    alloc: Global,
    depth: usize,
    room: usize,
    chars: &'a [char],
) -> Result<Inside<'a>, OrNoMemory<Flaw>>
    ensures reads { UnlessNoMemory (viewed inside_view result)
        (spec.content_at (spec.element_at depth) (length chars.now + 1) room chars.now) }
    ensures within { IfOk result (λ i. length i.rest.now ≤ length chars.now) }
{
    let mut text = Vec::new(alloc);
    let mut children = Vec::new(alloc);
    let mut room = room;
    let mut rest = chars;
    'content: loop {
        match ahead_of(rest) {
            Ahead::Nothing => return Err(OrNoMemory::Fault(ended())),
            Ahead::ClosingTag => {
                return Ok(Inside {
                    text,
                    children,
                    room,
                    rest,
                });
            }
            Ahead::Element => {
                let grown = match element_at(alloc, depth, room, rest) {
                    Ok(grown) => grown,
                    Err(stop) => return Err(stop),
                };
                children.push(grown.tree)?;
                room = grown.room;
                rest = grown.rest;
            }
            ahead => {
                let (piece, following) = match piece_at(ahead, rest) {
                    Ok(read) => read,
                    Err(flaw) => return Err(OrNoMemory::Fault(flaw)),
                };
                add_piece(&mut text, piece)?;
                rest = following;
            }
        }
    }
}

/// What follows the opening tag of an element, where so many levels may follow.
#[cycle(element)]
fn after_opening<'a>(
    alloc: Global,
    depth: usize,
    room: usize,
    tag: Tag<'a>,
    chars: &'a [char],
) -> Result<Grown<'a>, OrNoMemory<Flaw>>
    ensures reads { UnlessNoMemory (viewed grown_view result)
        (spec.after_opening (spec.element_at depth) room (tag_view tag.entry, chars.now)) }
    ensures within { IfOk result (λ g. length g.rest.now ≤ length chars.now) }
{
    if tag.is_empty {
        let tree = tree_of(alloc, tag, &[], Vec::new(alloc))?;
        return Ok(Grown {
            tree,
            room,
            rest: chars,
        });
    }
    let Inside {
        text,
        children,
        room,
        rest,
    } = content_at(alloc, depth, room, chars)?;
    let rest = closing_tag_at(tag.name, rest)?;
    let tree = tree_of(alloc, tag, text.as_slice(), children)?;
    Ok(Grown { tree, room, rest })
}

/// The element at the front, where there is room for so many and so many levels.
#[cycle(element)]
#[tactic(auto, unfolding(text_spec::specs::Element::element_at))]
pub(crate) fn element_at(
    alloc: Global,
    depth: usize,
    room: usize,
    chars: &[char],
) -> Result<Grown<'_>, OrNoMemory<Flaw>>
    ensures reads { UnlessNoMemory (viewed grown_view result) (spec.element_at depth room chars.now) }
    ensures within { IfOk result (λ g. length g.rest.now < length chars.now) }
{
    if depth == 0 {
        return Err(OrNoMemory::Fault(flaw(TextKind::Deep, chars)));
    }
    if room == 0 {
        return Err(OrNoMemory::Fault(flaw(TextKind::Wide, chars)));
    }
    let (tag, rest) = opening_tag_at(alloc, chars)?;
    after_opening(alloc, depth - 1, room - 1, tag, rest)
}
