// How many of a number of bytes the text of a tree leaves. Nothing is written.
ghost use Rattle.std.specs.Prelude.{◌≡◌, ◌-◌, ◌≤◌, ℕ, List, chars as chars_of};
ghost use Rattle.std.specs.List.{flat_map};
ghost use Rattle.xml_print.specs.Room.{IsInset, cap, room};
ghost use Rattle.text_spec.specs.Tree.{all_seen, seen};
ghost use Rattle.text_spec.specs.Written as spec;

use text_spec::{Pair, Tree};
use virt_types::MOST_TEXT_BYTES;

/// One byte more than a text may have: a text that leaves none of these is too long.
pub(crate) const CAP: usize = MOST_TEXT_BYTES + 1;

/// How many bytes a character of an element's text takes.
#[tactic(auto, unfolding(text_spec::specs::Written::in_text))]
fn text_bytes(c: char) -> usize
    ensures { result ≡ room (spec.in_text c) }
{
    match c {
        '&' => "&amp;".len(),
        '<' => "&lt;".len(),
        '>' => "&gt;".len(),
        _ => c.len_utf8(),
    }
}

/// How many bytes a character of a value takes.
#[tactic(auto, unfolding(text_spec::specs::Written::in_value))]
fn value_bytes(c: char) -> usize
    ensures { result ≡ room (spec.in_value c) }
{
    match c {
        '"' => "&quot;".len(),
        '\'' => "&apos;".len(),
        _ => text_bytes(c),
    }
}

/// What an element's text leaves.
fn after_text(left: usize, text: &str) -> usize
    ensures { result ≡ left - room (flat_map spec.in_text (chars_of text.now)) }
{
    let mut rest = left;
    for c in text.chars() {
        rest = rest.saturating_sub(text_bytes(c));
    }
    rest
}

/// What a value leaves.
fn after_value(left: usize, value: &str) -> usize
    ensures { result ≡ left - room (flat_map spec.in_value (chars_of value.now)) }
{
    let mut rest = left;
    for c in value.chars() {
        rest = rest.saturating_sub(value_bytes(c));
    }
    rest
}

/// What a name leaves.
fn after_name(left: usize, name: &str) -> usize
    ensures { result ≡ left - room (chars_of name.now) }
{
    left.saturating_sub(name.len())
}

/// What an attribute leaves, with the blank before it.
fn after_attribute(left: usize, pair: &Pair) -> usize
    ensures { result ≡ left - room (spec.attribute_written pair.now) }
{
    let named = after_name(left, pair.name.as_str());
    let valued = after_value(named, pair.value.as_str());
    valued.saturating_sub(" =''".len())
}

/// What attributes leave.
fn after_attributes(left: usize, pairs: &[Pair]) -> usize
    ensures { result ≡ left - room (flat_map spec.attribute_written pairs.now) }
{
    let mut rest = left;
    for pair in pairs {
        rest = after_attribute(rest, pair);
    }
    rest
}

/// What the content of an element without children leaves, with its end.
fn after_leaf(left: usize, name: &str, text: &str) -> usize
    ensures { result ≡ left - room (spec.without_children (chars_of name.now)
        (flat_map spec.in_text (chars_of text.now))) }
{
    if text.is_empty() {
        left.saturating_sub("/>\n".len())
    } else {
        let named = after_name(left, name);
        after_text(named, text).saturating_sub("></>\n".len())
    }
}

/// What elements leave, one after another, each after so many blanks.
#[cycle(bytes)]
fn after_trees(left: usize, inset: usize, trees: &[Tree]) -> usize
    requires left { left ≤ cap }
    requires inset { inset ≤ cap }
    ensures less { result ≤ left }
    ensures value { (blanks : List ℕ) → IsInset inset blanks
        → result ≡ left - room (spec.trees_written blanks (all_seen trees.now)) }
{
    let mut rest = left;
    for tree in trees {
        rest = after_tree(rest, inset, tree);
    }
    rest
}

/// What an element leaves after so many blanks.
#[cycle(bytes)]
pub(crate) fn after_tree(left: usize, inset: usize, tree: &Tree) -> usize
    requires left { left ≤ cap }
    requires inset { inset ≤ cap }
    ensures less { result ≤ left }
    ensures value { (blanks : List ℕ) → IsInset inset blanks
        → result ≡ left - room (spec.tree_written blanks (seen tree.now)) }
{
    let inside = left.saturating_sub(inset).saturating_sub("<".len());
    let named = after_name(inside, tree.name.as_str());
    let opened = after_attributes(named, tree.attributes.as_slice());
    if tree.children.is_empty() {
        after_leaf(opened, tree.name.as_str(), tree.text.as_str())
    } else {
        let texted = after_text(opened, tree.text.as_str());
        let inner = after_trees(texted, (inset + 2).min(CAP), tree.children.as_slice());
        let closed = after_name(inner, tree.name.as_str());
        closed
            .saturating_sub(inset)
            .saturating_sub(">\n</>\n".len())
    }
}
