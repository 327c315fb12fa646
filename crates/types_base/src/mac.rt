// Addresses of network interfaces.

/// A MAC address: six bytes, written as six pairs of hexadecimal digits with colons (IEEE 802, EUI-48).
#[derive(Clone, Copy, Debug, PartialEq, Eq)]
pub struct Mac {
    /// The bytes, in the order of writing.
    pub bytes: [u8; 6],
}
