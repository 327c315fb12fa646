// What a size in a text may be wrong in.

use thiserror::Error;

/// Why a text with a unit is no size that is allowed there.
#[derive(Clone, Copy, Debug, PartialEq, Eq, Error)]
pub enum SizeFault {
    /// The text is no number of 1 to 19 digits, or the unit is none.
    #[error("no number of 1 to 19 digits, or no unit")]
    BadValue,
    /// The size is outside its range.
    #[error("out of range")]
    Range,
}
