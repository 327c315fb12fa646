// A whole document, in characters.
ghost use Rattle.std.specs.Prelude.{◌≡◌, ℕ, ◌≤◌, ◌+◌, length, IfOk};
ghost use Rattle.text_spec.specs.Text as spec;
ghost use Rattle.text_spec.specs.Tree.{seen};
ghost use Rattle.types_base.specs.Memory.{UnlessNoMemory};
ghost use Rattle.markup.specs.Gives.{Tells, viewed};
ghost use Rattle.markup.specs.View.{grown_view};

use crate::aside::aside_at;
use crate::declaration::after_declaration;
use crate::element::{Grown, ahead_of, element_at};
use crate::scan::{ended, flaw, skip_blanks};
use std::alloc::Global;
use text_spec::{Ahead, Flaw, MOST_ELEMENTS, MOST_LEVELS, TextKind, Tree};
use types_base::OrNoMemory;

/// Nothing, where nothing follows; otherwise a `<` is at the end.
fn at_end(chars: &[char]) -> Result<&[char], Flaw>
    ensures { Tells (λ r. r.now) result (spec.at_end chars.now) }
{
    if chars.is_empty() {
        Ok(chars)
    } else {
        Err(ended())
    }
}

/// What follows blanks, comments and instructions.
fn misc_at(chars: &[char]) -> Result<&[char], Flaw>
    ensures { Tells (λ r. r.now) result (spec.misc_at (length chars.now + 1) chars.now) }
{
    let mut rest = chars;
    'misc: loop {
        let after = skip_blanks(rest);
        match ahead_of(after) {
            Ahead::Nothing => return at_end(after),
            Ahead::Aside => {
                let following = match aside_at(false, after) {
                    Ok(read) => read.1,
                    Err(flaw) => return Err(flaw),
                };
                rest = following;
            }
            _ => return Ok(after),
        }
    }
}

/// The root element.
#[tactic(auto, unfolding(text_spec::specs::Text::root_at))]
fn root_at(alloc: Global, chars: &[char]) -> Result<Grown<'_>, OrNoMemory<Flaw>>
    ensures { UnlessNoMemory (viewed grown_view result) (spec.root_at chars.now) }
{
    match chars {
        [] => Err(OrNoMemory::Fault(ended())),
        ['<', ..] => element_at(alloc, MOST_LEVELS, MOST_ELEMENTS, chars),
        _ => Err(OrNoMemory::Fault(flaw(TextKind::Tag, chars))),
    }
}

/// The tree, where nothing is left.
fn all_read(tree: Tree, rest: &[char]) -> Result<Tree, OrNoMemory<Flaw>>
    ensures { UnlessNoMemory (viewed seen result) (spec.all_read (seen tree) rest.now) }
{
    if rest.is_empty() {
        Ok(tree)
    } else {
        Err(OrNoMemory::Fault(flaw(TextKind::Rest, rest)))
    }
}

/// The tree of a document.
#[tactic(auto, unfolding(text_spec::specs::Text::document))]
pub(crate) fn document(alloc: Global, chars: &[char]) -> Result<Tree, OrNoMemory<Flaw>>
    ensures { UnlessNoMemory (viewed seen result) (spec.document chars.now) }
{
    let prolog = after_declaration(chars)?;
    let start = misc_at(prolog)?;
    let Grown {
        tree,
        room: _,
        rest,
    } = root_at(alloc, start)?;
    let rest = misc_at(rest)?;
    all_read(tree, rest)
}
