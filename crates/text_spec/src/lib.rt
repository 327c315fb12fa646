//! What a definition text is: the tree that it stands for, where it may be at fault, and the
//! grammar that contracts cite; the element tables, and the definitions that trees stand for.
#![tactic(auto)]

mod ahead;
mod back;
mod definition;
mod device_kind;
mod fault;
mod limits;
mod pair;
mod row;
mod size;
mod tree;
mod vocabulary;

pub use ahead::Ahead;
pub use back::written_reads_back;
pub use definition::{DefFault, DefKind};
pub use device_kind::DeviceKind;
pub use fault::{Flaw, TextFault, TextKind};
pub use limits::{MOST_DEVICES, MOST_ELEMENTS, MOST_LEVELS, MOST_VCPUS};
pub use pair::{Pair, PairList};
pub use row::{Content, Need, Place, Row, Source};
pub use size::SizeFault;
pub use tree::{Tree, TreeList};
pub use vocabulary::{AttributeName, ElementName};
