// Elements, and lists of them.
ghost use Rattle.std.specs.Prelude.{◌≡◌, ◌++◌, ◌∷◌, [], OnOk, IfOk, map};
ghost use Rattle.text_spec.specs.Spelling as spec;
ghost use Rattle.text_spec.specs.Tree.{seen};

use std::alloc::Global;
use text_spec::{ElementName, PairList, Tree};
use virt_types::{NoMemory, Text, both};
use xml_tables::element_word;

/// Adds an element after others.
pub(crate) fn add(out: &mut Vec<Tree>, tree: Tree) -> Result<(), NoMemory>
    ensures { OnOk result (map seen out.new.items ≡ map seen out.old.items ++ seen tree ∷ []) }
{
    out.push(tree)?;
    Ok(())
}

/// An element with a text and other elements in it.
fn element(
    alloc: Global,
    name: ElementName,
    attributes: PairList,
    text: &str,
    children: Vec<Tree>,
) -> Result<Tree, NoMemory>
    ensures { IfOk result (λ t. seen t
        ≡ spec.filled name attributes text.now (map seen children.items)) }
{
    match both(
        Text::copy_of(alloc, element_word(name)),
        Text::copy_of(alloc, text),
    ) {
        Ok((name, text)) => Ok(Tree {
            name,
            attributes,
            text,
            children,
        }),
        Err(NoMemory) => Err(NoMemory),
    }
}

/// An element with other elements in it.
pub(crate) fn holding(
    alloc: Global,
    name: ElementName,
    attributes: PairList,
    children: Vec<Tree>,
) -> Result<Tree, NoMemory>
    ensures { IfOk result (λ t. seen t
        ≡ spec.holding name attributes (map seen children.items)) }
{
    element(alloc, name, attributes, "", children)
}

/// An element with a text.
pub(crate) fn worded(
    alloc: Global,
    name: ElementName,
    attributes: PairList,
    text: &str,
) -> Result<Tree, NoMemory>
    ensures { IfOk result (λ t. seen t ≡ spec.worded name attributes text.now) }
{
    element(alloc, name, attributes, text, Vec::new(alloc))
}

/// An element with attributes alone.
pub(crate) fn tagged(
    alloc: Global,
    name: ElementName,
    attributes: PairList,
) -> Result<Tree, NoMemory>
    ensures { IfOk result (λ t. seen t ≡ spec.tagged name attributes) }
{
    element(alloc, name, attributes, "", Vec::new(alloc))
}
