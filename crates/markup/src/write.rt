// Writing a tree as a text.
ghost use Rattle.std.specs.Prelude.{◌≡◌, ℕ, List, [], ◌∷◌, ◌++◌, IfOk, OnOk, chars as chars_of};
ghost use Rattle.std.specs.List.{flat_map};
ghost use Rattle.text_spec.specs.Text.{read_of};
ghost use Rattle.text_spec.specs.Writable.{IsWritable};
ghost use Rattle.text_spec.specs.Written as spec;
ghost use Rattle.text_spec.specs.Tree.{seen, all_seen, trees as trees_of};

use crate::read::characters;
use crate::tag::text_of;
use std::alloc::Global;
use text_spec::{Pair, Tree, written_reads_back};
use types_base::{NoMemory, Text};

/// Adds a character of an element's text.
#[tactic(auto, unfolding(text_spec::specs::Written::in_text))]
fn push_in_text(out: &mut Vec<char>, c: char) -> Result<(), NoMemory>
    ensures { OnOk result (out.new.items ≡ out.old.items ++ spec.in_text c) }
{
    match c {
        '&' => out.extend_from_slice(&['&', 'a', 'm', 'p', ';'])?,
        '<' => out.extend_from_slice(&['&', 'l', 't', ';'])?,
        '>' => out.extend_from_slice(&['&', 'g', 't', ';'])?,
        _ => out.push(c)?,
    }
    Ok(())
}

/// Adds a character of a value.
#[tactic(auto, unfolding(text_spec::specs::Written::in_value))]
fn push_in_value(out: &mut Vec<char>, c: char) -> Result<(), NoMemory>
    ensures { OnOk result (out.new.items ≡ out.old.items ++ spec.in_value c) }
{
    match c {
        '"' => out.extend_from_slice(&['&', 'q', 'u', 'o', 't', ';'])?,
        '\'' => out.extend_from_slice(&['&', 'a', 'p', 'o', 's', ';'])?,
        _ => push_in_text(out, c)?,
    }
    Ok(())
}

/// Adds an element's text.
fn push_text(out: &mut Vec<char>, text: &[char]) -> Result<(), NoMemory>
    ensures { OnOk result (out.new.items ≡ out.old.items ++ flat_map spec.in_text text.now) }
{
    let mut rest = text;
    while let Some((c, after)) = rest.split_first() {
        push_in_text(out, *c)?;
        rest = after;
    }
    Ok(())
}

/// Adds the value of an attribute.
fn push_value(out: &mut Vec<char>, value: &[char]) -> Result<(), NoMemory>
    ensures { OnOk result (out.new.items ≡ out.old.items ++ flat_map spec.in_value value.now) }
{
    let mut rest = value;
    while let Some((c, after)) = rest.split_first() {
        push_in_value(out, *c)?;
        rest = after;
    }
    Ok(())
}

/// Adds an attribute after a blank.
fn push_attribute(alloc: Global, out: &mut Vec<char>, pair: &Pair) -> Result<(), NoMemory>
    ensures { OnOk result (out.new.items ≡ out.old.items ++ spec.attribute_written pair.now) }
{
    let name = characters(alloc, pair.name.as_str())?;
    let value = characters(alloc, pair.value.as_str())?;
    out.push(' ')?;
    out.extend_from_slice(name.as_slice())?;
    out.extend_from_slice(&['=', '\''])?;
    push_value(out, value.as_slice())?;
    out.push('\'')?;
    Ok(())
}

/// Adds attributes, each after a blank.
fn push_attributes(alloc: Global, out: &mut Vec<char>, pairs: &[Pair]) -> Result<(), NoMemory>
    ensures { OnOk result (out.new.items ≡ out.old.items
        ++ flat_map spec.attribute_written pairs.now) }
{
    for pair in pairs {
        push_attribute(alloc, out, pair)?;
    }
    Ok(())
}

/// Adds an opening tag after these blanks, up to its end.
fn push_opened(
    alloc: Global,
    out: &mut Vec<char>,
    inset: &[char],
    name: &[char],
    pairs: &[Pair],
) -> Result<(), NoMemory>
    ensures { OnOk result (out.new.items ≡ out.old.items
        ++ spec.opened inset.now name.now pairs.now) }
{
    out.extend_from_slice(inset)?;
    out.push('<')?;
    out.extend_from_slice(name)?;
    push_attributes(alloc, out, pairs)
}

/// Adds a closing tag and the end of its line.
fn push_closing(out: &mut Vec<char>, name: &[char]) -> Result<(), NoMemory>
    ensures { OnOk result (out.new.items ≡ out.old.items ++ spec.closing name.now) }
{
    out.extend_from_slice(&['<', '/'])?;
    out.extend_from_slice(name)?;
    out.extend_from_slice(&['>', '\n'])?;
    Ok(())
}

/// Adds what an element without children holds, and its end.
fn push_without_children(
    alloc: Global,
    out: &mut Vec<char>,
    name: &[char],
    text: &[char],
) -> Result<(), NoMemory>
    ensures { OnOk result (out.new.items ≡ out.old.items
        ++ spec.without_children name.now (flat_map spec.in_text text.now)) }
{
    let mut escaped = Vec::new(alloc);
    push_text(&mut escaped, text)?;
    if escaped.is_empty() {
        out.extend_from_slice(&['/', '>', '\n'])?;
        return Ok(());
    }
    out.push('>')?;
    out.extend_from_slice(escaped.as_slice())?;
    push_closing(out, name)
}

/// Adds elements after these blanks, one after another.
#[cycle(write)]
fn push_trees(
    alloc: Global,
    out: &mut Vec<char>,
    inset: &[char],
    trees: &[Tree],
) -> Result<(), NoMemory>
    ensures { OnOk result (out.new.items ≡ out.old.items
        ++ spec.trees_written inset.now (all_seen trees.now)) }
{
    for tree in trees {
        push_tree(alloc, out, inset, tree)?;
    }
    Ok(())
}

/// Adds what an element with children holds, and its end.
#[cycle(write)]
fn push_with_children(
    alloc: Global,
    out: &mut Vec<char>,
    inset: &[char],
    name: &[char],
    text: &[char],
    trees: &[Tree],
) -> Result<(), NoMemory>
    ensures { OnOk result (out.new.items ≡ out.old.items
        ++ spec.with_children inset.now name.now (flat_map spec.in_text text.now)
        (spec.trees_written (spec.deeper inset.now) (all_seen trees.now))) }
{
    let mut deeper = Vec::from_slice(alloc, inset)?;
    deeper.extend_from_slice(&[' ', ' '])?;
    out.push('>')?;
    push_text(out, text)?;
    out.push('\n')?;
    push_trees(alloc, out, deeper.as_slice(), trees)?;
    out.extend_from_slice(inset)?;
    push_closing(out, name)
}

/// Adds an element after these blanks.
#[cycle(write)]
fn push_tree(
    alloc: Global,
    out: &mut Vec<char>,
    inset: &[char],
    tree: &Tree,
) -> Result<(), NoMemory>
    ensures { OnOk result (out.new.items ≡ out.old.items
        ++ spec.tree_written inset.now (seen tree.now)) }
{
    let name = characters(alloc, tree.name.as_str())?;
    let text = characters(alloc, tree.text.as_str())?;
    push_opened(
        alloc,
        out,
        inset,
        name.as_slice(),
        tree.attributes.as_slice(),
    )?;
    if tree.children.is_empty() {
        push_without_children(alloc, out, name.as_slice(), text.as_slice())
    } else {
        push_with_children(
            alloc,
            out,
            inset,
            name.as_slice(),
            text.as_slice(),
            tree.children.as_slice(),
        )
    }
}

/// The text of a tree: an element a line, two blanks a level, attributes in single quotes, an
/// element without content as `<a/>`, a line feed at the end.
///
/// A tree that reading can give reads back from its text.
pub fn write_tree(alloc: Global, tree: &Tree) -> Result<Text, NoMemory>
    ensures spelling { IfOk result (λ t. t ≡ spec.written (seen tree.now)) }
    ensures reads_back { IfOk result (λ t. IsWritable (seen tree.now)
        → read_of t ≡ Ok (seen tree.now)) }
{
    written_reads_back();
    let mut out = Vec::new(alloc);
    push_tree(alloc, &mut out, &[], tree)?;
    text_of(alloc, out.as_slice())
}
