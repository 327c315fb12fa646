// What is in a tree: elements by name, attributes, text.
ghost use Rattle.std.specs.Prelude.{◌≡◌, List, ℕ, map, find, option_map};
ghost use Rattle.text_spec.specs.Look as spec;
ghost use Rattle.text_spec.specs.Tree.{seen};

use text_spec::{AttributeName, ElementName, Pair, Place, Source, Tree};
use types_base::Text;
use xml_words::{attribute_word, element_word};

/// Whether an element has this name.
#[tactic(auto, using(text_spec::proofs::Seen::name_seen), unfolding(text_spec::specs::Look::is_element))]
pub fn is_element(name: ElementName, tree: &Tree) -> bool
    ensures { result ≡ spec.is_element name (seen tree.now) }
{
    tree.name.as_str() == element_word(name)
}

#[tactic(auto, unfolding(text_spec::specs::Look::is_attribute))]
fn is_attribute(name: AttributeName, pair: &Pair) -> bool
    ensures { result ≡ spec.is_attribute name pair.now }
{
    pair.name.as_str() == attribute_word(name)
}

fn value_among(name: AttributeName, pairs: &[Pair]) -> Option<&Text>
    ensures { option_map (λ v. v.now) result
        ≡ option_map (λ p. p.value) (find (spec.is_attribute name) pairs.now) }
{
    let mut rest = pairs;
    while let Some((pair, after)) = rest.split_first() {
        if is_attribute(name, pair) {
            return Some(&pair.value);
        }
        rest = after;
    }
    None
}

/// The value of an attribute.
#[tactic(auto, using(text_spec::proofs::Seen::pairs_seen), unfolding(text_spec::specs::Look::attribute_of))]
pub fn attribute_of(name: AttributeName, tree: &Tree) -> Option<&Text>
    ensures { option_map (λ v. v.now) result ≡ spec.attribute_of name (seen tree.now) }
{
    value_among(name, tree.attributes.as_slice())
}

fn first_among(name: ElementName, trees: &[Tree]) -> Option<&Tree>
    ensures { option_map (λ t. seen t.now) result
        ≡ find (spec.is_element name) (map seen trees.now) }
{
    let mut rest = trees;
    while let Some((tree, after)) = rest.split_first() {
        if is_element(name, tree) {
            return Some(tree);
        }
        rest = after;
    }
    None
}

/// The first element of a name in one.
#[tactic(auto, using(text_spec::proofs::Seen::children_seen), unfolding(text_spec::specs::Look::first_of))]
pub fn first_of(name: ElementName, tree: &Tree) -> Option<&Tree>
    ensures { option_map (λ t. seen t.now) result ≡ spec.first_of name (seen tree.now) }
{
    first_among(name, tree.children.as_slice())
}

/// The first element of a place.
pub fn element_at(place: Place, tree: &Tree) -> Option<&Tree>
    ensures { option_map (λ t. seen t.now) result ≡ spec.element_at place (seen tree.now) }
{
    match place {
        Place::Here => Some(tree),
        Place::Child(name) => first_of(name, tree),
        Place::Inside(outer, name) => match first_of(outer, tree) {
            Some(outer) => first_of(name, outer),
            None => None,
        },
    }
}

/// The value in an element.
#[tactic(auto, using(text_spec::proofs::Seen::text_seen))]
pub fn value_in(source: Source, tree: &Tree) -> Option<&Text>
    ensures { option_map (λ v. v.now) result ≡ spec.value_in source (seen tree.now) }
{
    match source {
        Source::Text => Some(&tree.text),
        Source::Attribute(name) => attribute_of(name, tree),
    }
}

/// The value at a place.
pub fn value_at(place: Place, source: Source, tree: &Tree) -> Option<&Text>
    ensures { option_map (λ v. v.now) result ≡ spec.value_at place source (seen tree.now) }
{
    match element_at(place, tree) {
        Some(element) => value_in(source, element),
        None => None,
    }
}
