// What is in a tree, by words.
ghost use Rattle.std.specs.Prelude.{◌≡◌, List, ℕ, find, map, option_map};
ghost use Rattle.text_spec.specs.Tree.{seen};
ghost use Rattle.xml_tables.specs.Called as spec;

use text_spec::{Pair, Tree};
use types_base::Text;

/// Whether an element has this name.
#[tactic(auto, using(text_spec::proofs::Seen::name_seen), unfolding(crate::specs::Called::is_called))]
pub fn is_called(word: &str, tree: &Tree) -> bool
    ensures { result ≡ spec.is_called word.now (seen tree.now) }
{
    tree.name.as_str() == word
}

#[tactic(auto, unfolding(crate::specs::Called::is_pair_called))]
fn is_pair_called(word: &str, pair: &Pair) -> bool
    ensures { result ≡ spec.is_pair_called word.now pair.now }
{
    pair.name.as_str() == word
}

fn value_among<'a>(word: &str, pairs: &'a [Pair]) -> Option<&'a Text>
    ensures { option_map (λ v. v.now) result
        ≡ option_map (λ p. p.value) (find (spec.is_pair_called word.now) pairs.now) }
{
    let mut rest = pairs;
    while let Some((pair, after)) = rest.split_first() {
        if is_pair_called(word, pair) {
            return Some(&pair.value);
        }
        rest = after;
    }
    None
}

/// The value of an attribute.
#[tactic(auto, using(text_spec::proofs::Seen::pairs_seen), unfolding(crate::specs::Called::value_called))]
pub fn value_called<'a>(word: &str, tree: &'a Tree) -> Option<&'a Text>
    ensures { option_map (λ v. v.now) result ≡ spec.value_called word.now (seen tree.now) }
{
    value_among(word, tree.attributes.as_slice())
}

fn first_among<'a>(word: &str, trees: &'a [Tree]) -> Option<&'a Tree>
    ensures { option_map (λ t. seen t.now) result
        ≡ find (spec.is_called word.now) (map seen trees.now) }
{
    let mut rest = trees;
    while let Some((tree, after)) = rest.split_first() {
        if is_called(word, tree) {
            return Some(tree);
        }
        rest = after;
    }
    None
}

/// The first element of a name in one.
#[tactic(auto, using(text_spec::proofs::Seen::children_seen), unfolding(crate::specs::Called::first_called))]
pub fn first_called<'a>(word: &str, tree: &'a Tree) -> Option<&'a Tree>
    ensures { option_map (λ t. seen t.now) result ≡ spec.first_called word.now (seen tree.now) }
{
    first_among(word, tree.children.as_slice())
}

/// The text of the first element of a name.
#[tactic(auto, using(text_spec::proofs::Seen::text_seen))]
pub fn text_called<'a>(word: &str, tree: &'a Tree) -> Option<&'a Text>
    ensures { option_map (λ v. v.now) result ≡ spec.text_called word.now (seen tree.now) }
{
    match first_called(word, tree) {
        Some(element) => Some(&element.text),
        None => None,
    }
}
