// Trees, put together by words.
ghost use Rattle.std.specs.Prelude.{◌≡◌, ◌++◌, ◌∷◌, [], IfOk, OnOk, map, option_map};
ghost use Rattle.text_spec.specs.Tree.{seen};
ghost use Rattle.xml_tables.specs.Spelled as spec;

use std::alloc::Global;
use text_spec::{Pair, PairList, Tree};
use types_base::{NoMemory, Text, both};

/// Adds an attribute.
pub fn push_worth(
    alloc: Global,
    out: &mut PairList,
    word: &str,
    value: &str,
) -> Result<(), NoMemory>
    ensures { OnOk result (out.new ≡ out.old ++ spec.worth word.now value.now ∷ []) }
{
    let name = Text::copy_of(alloc, word)?;
    let value = Text::copy_of(alloc, value)?;
    out.push(Pair { name, value })
}

/// An element with a text and other elements in it.
pub fn spelled(
    alloc: Global,
    word: &str,
    attributes: PairList,
    text: &str,
    children: Vec<Tree>,
) -> Result<Tree, NoMemory>
    ensures { IfOk result (λ t. seen t
        ≡ spec.spelled word.now attributes text.now (map seen children.items)) }
{
    match both(Text::copy_of(alloc, word), Text::copy_of(alloc, text)) {
        Ok((name, text)) => Ok(Tree {
            name,
            attributes,
            text,
            children,
        }),
        Err(NoMemory) => Err(NoMemory),
    }
}

/// An element with a text alone.
pub fn worded(alloc: Global, word: &str, text: &str) -> Result<Tree, NoMemory>
    ensures { IfOk result (λ t. seen t ≡ spec.worded word.now text.now) }
{
    spelled(alloc, word, PairList::new(alloc), text, Vec::new(alloc))
}

/// Adds an element after others.
pub fn add(out: &mut Vec<Tree>, tree: Tree) -> Result<(), NoMemory>
    ensures { OnOk result (map seen out.new.items ≡ map seen out.old.items ++ seen tree ∷ []) }
{
    out.push(tree)?;
    Ok(())
}

/// Adds an element with a text alone, where there is a text.
pub fn add_worded(
    alloc: Global,
    out: &mut Vec<Tree>,
    word: &str,
    text: Option<&str>,
) -> Result<(), NoMemory>
    ensures { OnOk result (map seen out.new.items ≡ map seen out.old.items
        ++ spec.wordeds word.now (option_map (λ t. t.now) text.entry)) }
{
    match text {
        Some(text) => add(out, worded(alloc, word, text)?),
        None => Ok(()),
    }
}
