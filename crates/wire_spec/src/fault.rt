// Why bytes are no packet, and why a payload is none of the items wanted.
use std::error::Error;
use std::fmt;
use types_base::OrNoMemory;

/// Why no packet begins with some bytes: the first word that shows it, in the order of the words.
#[derive(Clone, Copy, Debug, PartialEq, Eq)]
pub enum BadPacket {
    /// The length word is below 28, the length of a packet without payload.
    LengthLow {
        /// The word.
        l: u32,
    },
    /// The length word is above `MOST_BYTES`.
    LengthHigh {
        /// The word.
        l: u32,
    },
    /// The kind is above 2.
    Kind {
        /// The word.
        t: u32,
    },
    /// The status is above 2, or that of a call is not 0.
    Status {
        /// The word.
        s: u32,
    },
}

// As `virtd` names them on standard error.
impl fmt::Display for BadPacket {
    fn fmt<W: fmt::Write>(&self, f: &mut fmt::Formatter<W>) -> fmt::Result {
        match self {
            BadPacket::LengthLow { l } => write!(f, "LengthLow {l}"),
            BadPacket::LengthHigh { l } => write!(f, "LengthHigh {l}"),
            BadPacket::Kind { t } => write!(f, "Kind {t}"),
            BadPacket::Status { s } => write!(f, "Status {s}"),
        }
    }
}

impl Error for BadPacket {}

/// Why no item of XDR is at a place. Places count from the payload's first byte.
#[derive(Clone, Copy, Debug, PartialEq, Eq)]
pub enum XdrFault {
    /// The item that begins here, with its length word and padding, passes the end.
    Short {
        /// The item's first byte.
        at: u64,
    },
    /// This byte of padding is not 0.
    Pad {
        /// The byte.
        at: u64,
    },
    /// The word of a truth value is neither 0 nor 1.
    Flag {
        /// The word's first byte.
        at: u64,
    },
    /// The length word passes the procedure's bound.
    TooLong {
        /// The length word's first byte.
        at: u64,
        /// The length word.
        length: u64,
    },
    /// Bytes are left after the last item.
    Extra {
        /// The first of them.
        at: u64,
    },
    /// The bytes of a string are not UTF-8.
    Text {
        /// The first byte of the first ill-formed sequence.
        at: u64,
    },
}

impl fmt::Display for XdrFault {
    fn fmt<W: fmt::Write>(&self, f: &mut fmt::Formatter<W>) -> fmt::Result {
        match self {
            XdrFault::Short { at } => write!(f, "the item at {at} passes the end"),
            XdrFault::Pad { at } => write!(f, "the padding at {at} is not 0"),
            XdrFault::Flag { at } => write!(f, "the truth value at {at} is neither 0 nor 1"),
            XdrFault::TooLong { at, length } => write!(
                f,
                "the length {length} at {at} is too great"
            ),
            XdrFault::Extra { at } => write!(f, "there are more bytes at {at}"),
            XdrFault::Text { at } => write!(f, "the text is not UTF-8 at {at}"),
        }
    }
}

impl Error for XdrFault {}

impl From<XdrFault> for OrNoMemory<XdrFault> {
    ghost use Rattle.std.specs.Prelude.{◌≡◌};
    ghost use Rattle.types_base.specs.declared.memory.OrNoMemory.TheVariants as or;

    ghost from_gives = { λ fault e. e ≡ or.Fault fault };

    fn from(fault: XdrFault) -> OrNoMemory<XdrFault> {
        OrNoMemory::Fault(fault)
    }
}
