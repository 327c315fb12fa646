// Reading a text into the tree that it is.
ghost use Rattle.std.specs.Prelude.{◌≡◌, ℕ, ◌≤◌, length, drop, take, IfOk, encode_utf8_all, chars as chars_of, Result};
ghost use Rattle.text_spec.specs.Text as spec;
ghost use Rattle.text_spec.specs.Tree as spec_tree;
ghost use Rattle.text_spec.specs.Tree.{seen};
ghost use Rattle.text_spec.specs.declared.fault.TextFault.{TextFault};
ghost use Rattle.types_base.specs.Memory.{UnlessNoMemory};
ghost use Rattle.markup.specs.Gives.{viewed};

use crate::document::document;
use std::alloc::Global;
use text_spec::{Flaw, TextFault, TextKind, Tree};
use types_base::{MOST_TEXT_BYTES, NoMemory, OrNoMemory};

const BYTE_ORDER_MARK: char = '\u{FEFF}';

/// The characters after the mark that may come first.
#[tactic(auto, unfolding(text_spec::specs::Text::unmarked))]
fn unmarked(chars: &[char]) -> &[char]
    ensures { result.now ≡ spec.unmarked chars.now }
{
    match chars {
        [c, rest @ ..] if *c == BYTE_ORDER_MARK => rest,
        _ => chars,
    }
}

/// How many bytes the characters take.
fn length_in_bytes(chars: &[char]) -> u64
    requires { length chars.now ≤ spec.most_bytes }
    ensures { result ≡ length (encode_utf8_all chars.now) }
{
    let mut count = 0u64;
    let mut rest = chars;
    while let Some((c, after)) = rest.split_first() {
        count += c.len_utf8() as u64;
        rest = after;
    }
    count
}

/// Where a flaw is, in bytes.
fn fault_of(chars: &[char], flaw: Flaw) -> TextFault
    requires { length chars.now ≤ spec.most_bytes }
    ensures { result ≡ spec.fault_of chars.now flaw }
{
    let before = chars.split_at(chars.len().saturating_sub(flaw.left)).0;
    TextFault {
        at: length_in_bytes(before),
        kind: flaw.kind,
    }
}

/// The characters of a text.
pub(crate) fn characters(alloc: Global, text: &str) -> Result<Vec<char>, NoMemory>
    ensures value { IfOk result (λ v. v.items ≡ chars_of text.now) }
    ensures within { IfOk result (λ v. length v.items ≤ length text.now) }
{
    Ok(text.chars().collect(alloc)?)
}

/// The tree of these characters.
#[tactic(auto, unfolding(text_spec::specs::Text::tree_of_characters))]
fn tree_of_characters(alloc: Global, text: &str) -> Result<Tree, OrNoMemory<TextFault>>
    requires { length text.now ≤ spec.most_bytes }
    ensures { UnlessNoMemory (viewed seen result) (spec.tree_of_characters (chars_of text.now)) }
{
    let chars = characters(alloc, text)?;
    match document(alloc, unmarked(chars.as_slice())) {
        Ok(tree) => Ok(tree),
        Err(OrNoMemory::NoMemory) => Err(OrNoMemory::NoMemory),
        Err(OrNoMemory::Fault(flaw)) => Err(OrNoMemory::Fault(fault_of(chars.as_slice(), flaw))),
    }
}

/// What is at fault where bytes that are not UTF-8 follow what was read.
fn cut_short(
    at: u64,
    read: Result<Tree, OrNoMemory<TextFault>>,
) -> Result<Tree, OrNoMemory<TextFault>>
    ensures { (found : Result spec_tree.Tree TextFault) → UnlessNoMemory (viewed seen read) found
        → UnlessNoMemory (viewed seen result) (spec.cut_short at found) }
{
    let cut = TextFault {
        at,
        kind: TextKind::Utf8,
    };
    match read {
        Err(OrNoMemory::NoMemory) => Err(OrNoMemory::NoMemory),
        Err(OrNoMemory::Fault(fault)) if fault.kind != TextKind::End => {
            Err(OrNoMemory::Fault(fault))
        }
        _ => Err(OrNoMemory::Fault(cut)),
    }
}

/// The tree that these bytes are in the grammar of definition texts: XML 1.0 (fifth edition) in
/// UTF-8 without a document type, of at most 65,536 bytes, 32 levels and 4,096 elements.
///
/// The fault is the first place at which the bytes leave that grammar. Blanks at the ends of an
/// element's own text are no part of it. Its cost is linear in the bytes, but for the names of one
/// tag's attributes, which go through an ordered set.
#[tactic(auto, unfolding(text_spec::specs::Text::read_of))]
pub fn read_tree(alloc: Global, text: &[u8]) -> Result<Tree, OrNoMemory<TextFault>>
    ensures { UnlessNoMemory (viewed seen result) (spec.read_of text.now) }
{
    if text.len() > MOST_TEXT_BYTES {
        return Err(OrNoMemory::Fault(TextFault {
            at: MOST_TEXT_BYTES as u64,
            kind: TextKind::TooLong,
        }));
    }
    match str::from_utf8(text) {
        Ok(whole) => tree_of_characters(alloc, whole),
        Err(error) => {
            let at = error.valid_up_to();
            match str::from_utf8(text.split_at(at).0) {
                Ok(front) => cut_short(at as u64, tree_of_characters(alloc, front)),
                Err(_) => unreachable!(),
            }
        }
    }
}
