// Why a client gave no answer.
use std::error::Error;
use std::fmt;
use virt_types::OrNoMemory;
use wire_spec::BadPacket;

/// Why a client gave no answer. The connection is over then.
#[derive(Clone, Copy, Debug, PartialEq, Eq)]
pub enum ClientFault {
    /// The source or the sink failed.
    Link,
    /// No packet begins as the bytes after the last packet do.
    BadPacket(BadPacket),
    /// The reply to the call is one of another procedure, or has the status of no reply, or its payload
    /// is none of the procedure's replies and no error.
    BadPayload,
    /// The reply that came is not the one to the call.
    WrongSerial {
        /// The number of the last call that was sent.
        sent: u32,
        /// The number in the reply.
        got: u32,
    },
    /// The input ended before the reply was whole.
    End,
    /// All numbers of calls were used.
    Spent,
}

impl fmt::Display for ClientFault {
    fn fmt<W: fmt::Write>(&self, f: &mut fmt::Formatter<W>) -> fmt::Result {
        match self {
            ClientFault::Link => write!(f, "link"),
            ClientFault::BadPacket(bad) => write!(f, "bad packet {bad}"),
            ClientFault::BadPayload => write!(f, "bad payload"),
            ClientFault::WrongSerial { sent, got } => {
                write!(f, "sent call {sent}, got the reply to call {got}")
            }
            ClientFault::End => write!(f, "end of input"),
            ClientFault::Spent => write!(f, "all numbers of calls are used"),
        }
    }
}

impl Error for ClientFault {}

impl From<ClientFault> for OrNoMemory<ClientFault> {
    ghost use Rattle.std.specs.Prelude.{◌≡◌};
    ghost use Rattle.virt_types.specs.Below.types_base.declared.memory.OrNoMemory.TheVariants as or;

    ghost from_gives = { λ fault e. e ≡ or.Fault fault };

    fn from(fault: ClientFault) -> OrNoMemory<ClientFault> {
        OrNoMemory::Fault(fault)
    }
}
