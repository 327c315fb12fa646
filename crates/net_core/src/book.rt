ghost use Rattle.std.specs.Prelude.{◌≡◌, ℕ, ◌<◌, ◌^◌, [], map, IfOk, Ok, length};
ghost use Rattle.book_spec.specs.declared.book.NetCall.{NetCall};
ghost use Rattle.book_spec.specs.declared.book.NetCall.TheVariants as call;
ghost use Rattle.book_spec.specs.declared.book.NetMark.{NetMark};
ghost use Rattle.book_spec.specs.declared.book.NetAnswer.TheVariants.{Refused};
ghost use Rattle.book_spec.specs.Networks.{Networks, network_of, uuid_of};
ghost use Rattle.book_spec.specs.NetCalls.{IsStored};
ghost use Rattle.book_spec.specs.NetHistory.{CanCall, HasCalled, MayCall, networks_of, told, told_lease, with_call, with_mark};
ghost use Rattle.book_spec.specs.NetReads.{AreLeases, AreRows, IsDescribed, IsReadOf};
ghost use Rattle.net_core.specs.Opening.{opened};

use crate::chronicle::Chronicle;
use crate::found::FoundNetworkList;
use crate::marking::{
    mark_autostart, mark_autostart_done, mark_def, mark_def_done, mark_done, mark_lease,
    mark_refusal, mark_refused, mark_uuid,
};
use crate::refusals::plain;
use crate::table::Table;
use book_spec::{LeaseFault, NetRowList};
use std::alloc::Global;
use std::marker::Model;
use virt_types::{LeaseRowList, Mac, NetDef, NoMemory, OrNoMemory, Refusal, Text, Uuid};

/// The book of networks. Contracts see its history: what is in it is shown by the chapter's base
/// and its marks.
#[derive(Drop)]
pub struct NetBook {
    table: Table,
    chronicle: Chronicle,
}

impl Model for NetBook {
    ghost use Rattle.book_spec.specs.NetHistory.{NetHistory};
    ghost use Rattle.net_core.specs.Keeping.{IsKept};

    ghost Value = { NetHistory };

    ghost view = { λ b. b.chronicle };

    ghost invariant = { λ b. IsKept b.table b.chronicle };
}

impl NetBook {
    /// The book of the networks that were found where the daemon was opened: each is inactive and
    /// has no leases.
    pub fn new(alloc: Global, found: FoundNetworkList) -> Result<NetBook, NoMemory>
        ensures { IfOk result (λ book. book ≡ record { chapter = 0; base = map opened found; marks = [] }) }
    {
        let table = Table::new(alloc, found)?;
        let chronicle = begin(&table);
        Ok(NetBook { table, chronicle })
    }

    /// Whether a network may be defined so. `NetworkExists` where its name or its identifier is held
    /// with another, `OperationInvalid` where it is active, `ListFull` where 64 others are in the
    /// book. After `Ok` the change goes through the store, and then comes `define` or `refuse`.
    pub fn may_define(&mut self, def: &NetDef) -> Result<(), Refusal>
        ghost number: { ℕ }
        requires { self.old.chapter < 2 ^ 62 }
        ensures { MayCall number (call.Define def.now) result self.old self.new }
    {
        let tested = self.table.may_define(def);
        mark_def(&mut self.chronicle, def, &tested);
        plain(self.table.alloc(), tested)
    }

    /// Whether a network may be taken out. `NoNetwork` where there is none of this identifier,
    /// `OperationInvalid` where it is active.
    pub fn may_undefine(&mut self, uuid: Uuid) -> Result<(), Refusal>
        ghost number: { ℕ }
        requires { self.old.chapter < 2 ^ 62 }
        ensures { MayCall number (call.Undefine uuid) result self.old self.new }
    {
        let tested = self.table.may_undefine(uuid);
        mark_refusal(&mut self.chronicle, uuid, &tested);
        plain(self.table.alloc(), tested)
    }

    /// Whether it may be said of a network that it is started where the daemon starts. `NoNetwork`
    /// where there is none of this identifier.
    pub fn may_autostart(&mut self, uuid: Uuid, on: bool) -> Result<(), Refusal>
        ghost number: { ℕ }
        requires { self.old.chapter < 2 ^ 62 }
        ensures { MayCall number (call.Autostart uuid on) result self.old self.new }
    {
        let tested = self.table.may_change(uuid);
        mark_autostart(&mut self.chronicle, uuid, on, &tested);
        plain(self.table.alloc(), tested)
    }

    /// Defines a network, once the store has it. It takes no memory.
    pub fn define(&mut self, def: NetDef) -> Result<(), Refusal>
        ghost number: { ℕ }
        requires { CanCall (call.Define def) self.old }
        ensures done { result ≡ Ok tt }
        ensures called { self.new ≡ with_call number (call.Define def) self.old }
    {
        mark_def_done(&mut self.chronicle, &def);
        self.table.define(def);
        Ok(())
    }

    /// Takes a network out, once the store has dropped it. It takes no memory.
    pub fn undefine(&mut self, uuid: Uuid) -> Result<(), Refusal>
        ghost number: { ℕ }
        requires { CanCall (call.Undefine uuid) self.old }
        ensures done { result ≡ Ok tt }
        ensures called { self.new ≡ with_call number (call.Undefine uuid) self.old }
    {
        mark_done(&mut self.chronicle, uuid);
        self.table.undefine(uuid);
        Ok(())
    }

    /// Says of a network whether it is started where the daemon starts, once the store has it. It
    /// takes no memory.
    pub fn autostart(&mut self, uuid: Uuid, on: bool) -> Result<(), Refusal>
        ghost number: { ℕ }
        requires { CanCall (call.Autostart uuid on) self.old }
        ensures done { result ≡ Ok tt }
        ensures called { self.new ≡ with_call number (call.Autostart uuid on) self.old }
    {
        mark_autostart_done(&mut self.chronicle, uuid, on);
        self.table.set_autostart(uuid, on);
        Ok(())
    }

    /// The store refused the change of the call that might be done. Its mark is that refusal.
    pub fn refuse(&mut self, refusal: Refusal)
        ghost asked: { ℕ × NetCall }
        requires stored { IsStored asked.1 }
        requires can { CanCall asked.1 self.old }
        ensures { self.new ≡ with_mark (record { number = asked.0; call = asked.1; answer = Refused refusal }) self.old }
    {
        mark_refused(&mut self.chronicle, &refusal);
    }

    /// Starts a network. `NoNetwork` where there is none of this identifier, `OperationInvalid` where
    /// it is active.
    pub fn start(&mut self, uuid: Uuid) -> Result<(), Refusal>
        ghost number: { ℕ }
        requires { self.old.chapter < 2 ^ 62 }
        ensures { HasCalled number (call.Start uuid) (told result) self.old self.new }
    {
        let started = self.table.start(uuid);
        mark_uuid(&mut self.chronicle, uuid, &started);
        plain(self.table.alloc(), started)
    }

    /// Stops a network, and its leases end. `NoNetwork` where there is none of this identifier,
    /// `OperationInvalid` where it is inactive.
    pub fn stop(&mut self, uuid: Uuid) -> Result<(), Refusal>
        ghost number: { ℕ }
        requires { self.old.chapter < 2 ^ 62 }
        ensures { HasCalled number (call.Stop uuid) (told result) self.old self.new }
    {
        let stopped = self.table.stop(uuid);
        mark_uuid(&mut self.chronicle, uuid, &stopped);
        plain(self.table.alloc(), stopped)
    }

    /// Leases an address of the network of this name to an interface. One that has a lease keeps it;
    /// one that has a host line gets that line's address; another gets the least address of the range
    /// that no lease and no host line has. Class 11 where no network has this name, 12 where it is
    /// inactive, 13 where no address is free.
    pub fn lease(&mut self, name: &Text, mac: Mac) -> Result<u32, OrNoMemory<LeaseFault>>
        ghost number: { ℕ }
        requires { self.old.chapter < 2 ^ 62 }
        ensures { HasCalled number (call.Lease name.now mac) (told_lease result) self.old self.new }
    {
        let leased = self.table.lease(name.as_bytes(), mac);
        mark_lease(&mut self.chronicle, name, mac, &leased);
        leased
    }

    /// The networks by rising name.
    pub fn list(&self) -> Result<NetRowList, NoMemory>
        ensures { IfOk result (AreRows (networks_of self.now)) }
    {
        self.table.rows()
    }

    /// The definition of a network. `NoNetwork` where there is none of this identifier.
    pub fn desc(&self, uuid: Uuid) -> Result<NetDef, Refusal>
        ensures { IsReadOf IsDescribed uuid (network_of uuid_of uuid (networks_of self.now)) result }
    {
        plain(self.table.alloc(), self.table.desc(uuid))
    }

    /// The leases of a network, by rising address. `NoNetwork` where there is none of this identifier.
    pub fn leases(&self, uuid: Uuid) -> Result<LeaseRowList, Refusal>
        ensures { IsReadOf AreLeases uuid (network_of uuid_of uuid (networks_of self.now)) result }
    {
        plain(self.table.alloc(), self.table.leases(uuid))
    }

    /// The number of the chapter.
    pub fn chapter(&self) -> u64
        ensures { result ≡ self.now.chapter }
    {
        self.chronicle.chapter()
    }

    /// How many marks the chapter has.
    pub fn marks(&self) -> u64
        ensures { result ≡ length self.now.marks }
    {
        self.chronicle.marks()
    }
}

// A history that begins with these networks.
fn begin(_table: &Table) -> Chronicle
    ghost base: { Networks }
    ensures { result ≡ record { chapter = 0; base = base; marks = [] } }
{
    Chronicle::begin()
}
