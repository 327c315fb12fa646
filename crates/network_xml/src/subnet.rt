// Which addresses a network has.
ghost use Rattle.std.specs.Prelude.{◌≡◌};
ghost use Rattle.network_xml.specs.Addresses as spec;

use types_base::AddressRange;

/// An address of a network, and how many leading bits all its addresses share.
#[derive(Clone, Copy)]
pub(crate) struct Subnet {
    pub(crate) address: u32,
    pub(crate) prefix: u32,
}

/// How many addresses a network of this prefix has.
fn size_of(prefix: u32) -> u64
    ensures { result ≡ spec.size_of prefix }
{
    1 << 32u32.saturating_sub(prefix)
}

/// The mask that begins with so many ones.
pub(crate) fn mask_of(prefix: u32) -> u32
    ensures { result ≡ spec.mask_of prefix }
{
    ((1u64 << 32) - size_of(prefix)) as u32
}

/// How many ones a mask begins with, where it has no other.
#[tactic(auto, unfolding(crate::specs::Addresses::ones_of))]
pub(crate) fn ones_of(mask: u32) -> Option<u32>
    ensures { result ≡ spec.ones_of mask }
{
    (0..33u32).find(|prefix| mask_of(*prefix) == mask)
}

impl Subnet {
    /// Whether the address is one of the network's.
    #[tactic(auto, unfolding(crate::specs::Addresses::contains))]
    pub(crate) fn contains(self, address: u32) -> bool
        ensures { result ≡ spec.contains self address }
    {
        let size = size_of(self.prefix);
        u64::from(self.address) / size == u64::from(address) / size
    }

    /// Whether these are addresses of the network, the first not above the last.
    #[tactic(auto, unfolding(crate::specs::Addresses::has_range))]
    pub(crate) fn has_range(self, range: AddressRange) -> bool
        ensures { result ≡ spec.has_range self range }
    {
        range.start <= range.end && self.contains(range.start) && self.contains(range.end)
    }
}
