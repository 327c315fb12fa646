// The tree that a text is.
use crate::pair::PairList;
use types_base::Text;

/// An element with all that is in it.
#[derive(Debug, Drop)]
pub struct Tree {
    /// Its name.
    pub name: Text,
    /// Its attributes, in order.
    pub attributes: PairList,
    /// The characters that it holds itself, without the blanks at both ends.
    pub text: Text,
    /// The elements in it, in order.
    pub children: TreeList,
}

/// Elements in order.
pub type TreeList = Vec<Tree>;
