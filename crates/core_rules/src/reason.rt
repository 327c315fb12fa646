// Why a call is refused, before a refusal is written.
use virt_types::{DomainState, RefusalCode};

/// Why a call is refused, where no text of a caller is kept. It takes no memory, so that a call can
/// be judged before there is room for the refusal.
#[derive(Clone, Copy, Debug, PartialEq, Eq)]
pub enum Reason {
    /// This code, with nothing kept.
    Bare(RefusalCode),
    /// The domain is in this state, which does not allow it.
    Invalid(DomainState),
    /// A number is outside its range.
    OutOfRange {
        /// The number.
        n: u64,
        /// The least that it may be.
        low: u64,
        /// The most that it may be.
        high: u64,
    },
    /// A number is none of 1 to 5, of what a guest does of its own.
    BadKick {
        /// The number.
        n: i32,
        /// Whether it is below 1.
        is_low: bool,
    },
    /// The guest or the desk refused, with this class.
    Failed(u32),
    /// The boot of this number, which the call carries, is not live.
    GuestEnded(u64),
    /// A list has as many entries as it may, and that many.
    ListFull(u64),
    /// A copy made no headway, and so much is left.
    Stalled(u64),
    /// The number of boots has come to its end.
    BootsSpent,
}
