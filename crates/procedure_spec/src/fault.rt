// Why a payload is none of a procedure's.
use std::error::Error;
use std::fmt;
use virt_types::OrNoMemory;
use wire_spec::XdrFault;

/// Why a payload is none of a procedure's, the first reason in this order. The last two come only
/// where replies, messages and errors are read; places count from the payload's first byte.
#[derive(Clone, Copy, Debug, PartialEq, Eq)]
pub enum ArgFault {
    /// The program is none of the two.
    Program,
    /// The version of the program is not 1.
    Version,
    /// The program has no procedure of that number, or it is not served.
    Procedure,
    /// The payload does not spell what the procedure's payloads hold.
    Xdr(XdrFault),
    /// A string is where a name has to be, and is no name.
    Name {
        /// The first byte that is wrong, or the one after the string where only its length or the
        /// whole is.
        at: u64,
    },
    /// An item is well spelled and yet not what is there: in an error a code of no table, another
    /// error domain, message or level than the code's, an empty kept text, or what is always absent;
    /// in a reply or a message a number or a text that stands for nothing.
    Foreign {
        /// The item's first byte.
        at: u64,
    },
}

impl fmt::Display for ArgFault {
    fn fmt<W: fmt::Write>(&self, f: &mut fmt::Formatter<W>) -> fmt::Result {
        match self {
            ArgFault::Program => write!(f, "unknown program"),
            ArgFault::Version => write!(f, "unknown version"),
            ArgFault::Procedure => write!(f, "unknown procedure"),
            ArgFault::Xdr(fault) => write!(f, "{fault}"),
            ArgFault::Name { at } => write!(f, "no name at {at}"),
            ArgFault::Foreign { at } => write!(f, "nothing that is known at {at}"),
        }
    }
}

impl Error for ArgFault {}

impl From<ArgFault> for OrNoMemory<ArgFault> {
    ghost use Rattle.std.specs.Prelude.{◌≡◌};
    ghost use Rattle.virt_types.specs.Below.types_base.declared.memory.OrNoMemory.TheVariants as or;

    ghost from_gives = { λ fault e. e ≡ or.Fault fault };

    fn from(fault: ArgFault) -> OrNoMemory<ArgFault> {
        OrNoMemory::Fault(fault)
    }
}

impl From<XdrFault> for ArgFault {
    ghost use Rattle.std.specs.Prelude.{◌≡◌};
    ghost use Rattle.procedure_spec.specs.declared.fault.ArgFault.TheVariants as fault;

    ghost from_gives = { λ bad e. e ≡ fault.Xdr bad };

    fn from(bad: XdrFault) -> ArgFault {
        ArgFault::Xdr(bad)
    }
}
