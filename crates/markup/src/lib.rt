//! Definition texts as trees: reads a text into the tree that it is, and writes a tree as a text.
#![tactic(auto)]

mod aside;
mod character;
mod declaration;
mod document;
mod element;
mod names;
mod read;
mod reference;
mod scan;
mod tag;
mod write;

pub use read::read_tree;
pub use text_spec::{Pair, PairList, TextFault, TextKind, Tree, TreeList};
pub use write::write_tree;
