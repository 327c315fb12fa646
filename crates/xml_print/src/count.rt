// How many elements a tree has.
ghost use Rattle.std.specs.Prelude.{◌≡◌, ◌+◌, min};
ghost use Rattle.text_spec.specs.Tree.{seen, all_seen};
ghost use Rattle.text_spec.specs.Writable as spec;

use text_spec::Tree;

/// How many elements there are in a list of trees, up to a limit.
#[cycle(count)]
fn count_all(trees: &[Tree], limit: u64) -> u64
    ensures { result ≡ min limit (spec.sizes (all_seen trees.now)) }
{
    let mut count = 0;
    for tree in trees {
        count += count_elements(tree, limit - count);
    }
    count
}

/// How many elements a tree has, up to a limit.
#[cycle(count)]
pub(crate) fn count_elements(tree: &Tree, limit: u64) -> u64
    ensures { result ≡ min limit (spec.size (seen tree.now)) }
{
    if limit == 0 {
        0
    } else {
        1 + count_all(tree.children.as_slice(), limit - 1)
    }
}
