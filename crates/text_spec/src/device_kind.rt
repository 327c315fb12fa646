// The kinds of devices that are distinguished by keys.

/// A kind of device of which a definition may have any number.
#[derive(Clone, Copy, Debug, PartialEq, Eq)]
pub enum DeviceKind {
    /// `disk`, distinguished by the attribute `dev` of `target`.
    Disk,
    /// `interface`, distinguished by the attribute `address` of `mac`.
    Interface,
}
