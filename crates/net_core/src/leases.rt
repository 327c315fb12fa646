// The leases of a network.
ghost use Rattle.std.specs.Prelude.{◌≡◌, ◌++◌, ◌∷◌, [], None, OnOk, OnErr, IfOk};
ghost use Rattle.book_spec.specs.Leases.{leased_to};
ghost use Rattle.book_spec.specs.NetReads.{AreInOrder};

use crate::mac_index::MacIndex;
use std::alloc::Global;
use std::marker::Model;
use virt_types::{LeaseRow, LeaseRowList, ListOf, Mac, NoMemory};

/// Leases in the order in which they were given, with an index by interface. Contracts see the leases.
#[derive(Drop)]
pub struct Leases {
    rows: Vec<LeaseRow>,
    by_mac: MacIndex,
}

impl Model for Leases {
    ghost use Rattle.std.specs.Prelude.{List};
    ghost use Rattle.virt_types.specs.declared.value.LeaseRow.{LeaseRow};
    ghost use Rattle.net_core.specs.Entries.{IsIndexed};

    ghost Value = { List LeaseRow };

    ghost view = { λ l. l.rows.items };

    ghost invariant = { λ l. IsIndexed l.by_mac l.rows.items };
}

impl Leases {
    /// None yet.
    pub(crate) fn new(alloc: Global) -> Leases
        ensures { result ≡ [] }
    {
        Leases {
            rows: Vec::new(alloc),
            by_mac: MacIndex::new(alloc),
        }
    }

    /// The address that was leased to this interface.
    pub(crate) fn get(&self, mac: Mac) -> Option<u32>
        ensures { result ≡ leased_to mac self.now }
    {
        self.by_mac.get(mac.bytes)
    }

    /// Leases an address to an interface that has none.
    pub(crate) fn push(&mut self, mac: Mac, address: u32) -> Result<(), NoMemory>
        requires { leased_to mac self.old ≡ None }
        ensures ok { OnOk result (self.new ≡ self.old ++ record { mac = mac; address = address } ∷ []) }
        ensures err { OnErr result (self.new ≡ self.old) }
    {
        self.rows.reserve(1)?;
        self.by_mac.insert(mac.bytes, address)?;
        self.rows.push_reserved(LeaseRow { mac, address });
        Ok(())
    }

    /// The leases by rising address.
    pub(crate) fn in_order(&self) -> Result<LeaseRowList, NoMemory>
        ensures { IfOk result (AreInOrder self.now) }
    {
        let mut rows = Vec::from_slice(*self.rows.allocator(), self.rows.as_slice())?;
        rows.sort_by_key(|row| row.address)?;
        Ok(ListOf::of(rows))
    }
}
