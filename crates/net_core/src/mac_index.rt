// Addresses by the interfaces that they are leased to.
ghost use Rattle.std.specs.Prelude.{◌≡◌, List, ℕ, OnOk, OnErr, None, Some};
ghost use Rattle.net_core.specs.Index.{address_at, number_of, IsMac, Updates, Stays};

use std::alloc::Global;
use std::collections::HashMap;
use virt_types::NoMemory;

/// A map from interfaces to addresses, whose keys are the numbers that the interfaces' bytes are. What
/// one lookup costs does not grow with the leases, as it would in a tree.
#[derive(Drop)]
pub struct MacIndex {
    addresses: HashMap<u64, u32>,
}

fn number(bytes: [u8; 6]) -> u64
    ensures number { result ≡ number_of bytes }
    ensures mac { IsMac bytes }
{
    let [a, b, c, d, e, f] = bytes;
    u64::from_be_bytes([0, 0, a, b, c, d, e, f])
}

impl MacIndex {
    /// An empty one.
    pub(crate) fn new(alloc: Global) -> MacIndex
        ensures { (bytes : List ℕ) → address_at result bytes ≡ None }
    {
        MacIndex {
            addresses: HashMap::new(alloc),
        }
    }

    /// The address of the interface of these bytes.
    pub(crate) fn get(&self, bytes: [u8; 6]) -> Option<u32>
        ensures address { result ≡ address_at self.now bytes }
        ensures mac { IsMac bytes }
    {
        self.addresses.get(&number(bytes)).copied()
    }

    /// Gives the interface of these bytes an address.
    pub(crate) fn insert(&mut self, bytes: [u8; 6], address: u32) -> Result<(), NoMemory>
        ensures ok { OnOk result (Updates bytes (Some address) self.old self.new) }
        ensures err { OnErr result (Stays self.old self.new) }
    {
        match self.addresses.insert(number(bytes), address) {
            Ok(_) => Ok(()),
            Err(_) => Err(NoMemory),
        }
    }
}
