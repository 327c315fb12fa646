// Where a tree is no definition, and in what way.
use thiserror::Error;
use types_base::{OrNoMemory, Text};

/// In what way a tree is no definition.
#[derive(Clone, Copy, Debug, PartialEq, Eq, Error)]
pub enum DefKind {
    /// What is needed is absent.
    #[error("missing")]
    Missing,
    /// A value that is not allowed there, or the key of another device.
    #[error("bad value")]
    BadValue,
    /// A number outside its range.
    #[error("out of range")]
    Range,
    /// More than 30 disks and interfaces.
    #[error("too many devices")]
    Many,
    /// The root element is another one.
    #[error("another root element")]
    Root,
    /// The definition's own text would pass the limits of a text.
    #[error("too long")]
    TooLong,
}

/// The first place, in the order of the element tables, at which a tree is no definition.
#[derive(Debug, Drop, Error)]
#[error("{}: {kind}", .path.as_str())]
pub struct DefFault {
    /// The names of the elements from the root to the place, each after a slash. The path of an
    /// attribute is that of its element.
    pub path: Text,
    /// In what way.
    pub kind: DefKind,
}

impl From<DefFault> for OrNoMemory<DefFault> {
    ghost use Rattle.std.specs.Prelude.{◌≡◌};
    ghost use Rattle.types_base.specs.declared.memory.OrNoMemory.TheVariants as or;

    ghost from_gives = { λ fault e. e ≡ or.Fault fault };

    fn from(fault: DefFault) -> OrNoMemory<DefFault> {
        OrNoMemory::Fault(fault)
    }
}
