// Where a text leaves the grammar, and in what way.
use thiserror::Error;
use types_base::OrNoMemory;

/// In what way a text leaves the grammar.
#[derive(Clone, Copy, Debug, PartialEq, Eq, Error)]
pub enum TextKind {
    /// Bytes that are not UTF-8.
    #[error("not UTF-8")]
    Utf8,
    /// A document type declaration, which is not read.
    #[error("document type")]
    Doctype,
    /// A reference that is neither one of the five named ones nor the number of a character.
    #[error("bad reference")]
    Reference,
    /// A tag, comment, instruction, section, declaration or run of text that is not well formed.
    #[error("not well formed")]
    Tag,
    /// An attribute that is not well formed, or whose name occurs twice in one tag.
    #[error("bad attribute")]
    Attribute,
    /// An element below more than 31 others.
    #[error("too many levels")]
    Deep,
    /// An element after 4,096 others.
    #[error("too many elements")]
    Wide,
    /// More than 65,536 bytes.
    #[error("too long")]
    TooLong,
    /// The text ends too early.
    #[error("the text ends too early")]
    End,
    /// Something follows the root element.
    #[error("something follows the root element")]
    Rest,
}

/// The first place at which a text leaves the grammar.
#[derive(Clone, Copy, Debug, PartialEq, Eq, Error)]
#[error("byte {at}: {kind}")]
pub struct TextFault {
    /// The offset of its first byte.
    pub at: u64,
    /// In what way.
    pub kind: TextKind,
}

impl From<TextFault> for OrNoMemory<TextFault> {
    ghost use Rattle.std.specs.Prelude.{◌≡◌};
    ghost use Rattle.types_base.specs.declared.memory.OrNoMemory.TheVariants as or;

    ghost from_gives = { λ fault e. e ≡ or.Fault fault };

    fn from(fault: TextFault) -> OrNoMemory<TextFault> {
        OrNoMemory::Fault(fault)
    }
}

/// A fault found while reading. Its place is given by how many characters were left there.
#[derive(Clone, Copy, Debug, PartialEq, Eq)]
pub struct Flaw {
    /// How many characters are left.
    pub left: usize,
    /// In what way the text leaves the grammar.
    pub kind: TextKind,
}

impl From<Flaw> for OrNoMemory<Flaw> {
    ghost use Rattle.std.specs.Prelude.{◌≡◌};
    ghost use Rattle.types_base.specs.declared.memory.OrNoMemory.TheVariants as or;

    ghost from_gives = { λ fault e. e ≡ or.Fault fault };

    fn from(fault: Flaw) -> OrNoMemory<Flaw> {
        OrNoMemory::Fault(fault)
    }
}
