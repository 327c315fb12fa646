ghost use Rattle.std.specs.Prelude.{◌≡◌, ℕ, ◌<◌, ◌^◌, [], map, IfOk, Ok, length};
ghost use Rattle.book_spec.specs.declared.pool_book.PoolCall.{PoolCall};
ghost use Rattle.book_spec.specs.declared.pool_book.PoolCall.TheVariants as call;
ghost use Rattle.book_spec.specs.declared.pool_book.PoolMark.{PoolMark};
ghost use Rattle.book_spec.specs.declared.pool_book.PoolAnswer.TheVariants.{Refused};
ghost use Rattle.book_spec.specs.Pools.{Pools, pool_of, uuid_of};
ghost use Rattle.book_spec.specs.PoolCalls.{IsStored};
ghost use Rattle.book_spec.specs.PoolHistory.{CanCall, HasCalled, MayCall, pools_of, told, with_call, with_mark};
ghost use Rattle.book_spec.specs.PoolReads.{AreNames, AreRows, IsRead, described, volume_in, volumes_in};
ghost use Rattle.pool_core.specs.Answers.{IsSame};
ghost use Rattle.pool_core.specs.Opening.{opened};

use crate::chronicle::Chronicle;
use crate::marking::{
    mark_autostart, mark_autostart_done, mark_def, mark_def_done, mark_deleted, mark_done,
    mark_made, mark_refusal, mark_refused, mark_uuid,
};
use crate::{FoundPoolList, Table, plain};
use std::alloc::Global;
use std::marker::Model;
use std::snapshot::Snapshot;
use virt_types::{Name, NameList, NoMemory, PoolDef, PoolRowList, Refusal, Uuid, VolDef};

/// The book of pools. Contracts see its history: what is in it is shown by the chapter's base
/// and its marks.
#[derive(Drop)]
pub struct PoolBook {
    table: Table,
    chronicle: Chronicle,
}

impl Model for PoolBook {
    ghost use Rattle.book_spec.specs.PoolHistory.{PoolHistory};
    ghost use Rattle.pool_core.specs.Keeping.{IsKept};

    ghost Value = { PoolHistory };

    ghost view = { λ b. b.chronicle };

    ghost invariant = { λ b. IsKept b.table b.chronicle };
}

impl PoolBook {
    /// The book of the pools that were found where the daemon was opened: each is inactive and
    /// has no volumes.
    pub fn new(alloc: Global, found: FoundPoolList) -> Result<PoolBook, NoMemory>
        ensures { IfOk result (λ book. book ≡ record { chapter = 0; base = map opened found; marks = [] }) }
    {
        let table = Table::new(alloc, found)?;
        let chronicle = begin(&table);
        Ok(PoolBook { table, chronicle })
    }

    /// Whether a pool may be defined so. `PoolExists` where its name or its identifier is held
    /// with another, `OperationInvalid` where it is active, `ListFull` where 64 others are in the
    /// book. After `Ok` the change goes through the store, and then comes `define` or `refuse`.
    pub fn may_define(&mut self, def: &PoolDef) -> Result<(), Refusal>
        ghost number: { ℕ }
        requires { self.old.chapter < 2 ^ 62 }
        ensures { MayCall number (call.Define def.now) result self.old self.new }
    {
        let tested = self.table.may_define(def);
        mark_def(&mut self.chronicle, def, &tested);
        plain(self.table.alloc(), tested)
    }

    /// Whether a pool may be taken out. `NoPool` where there is none of this identifier,
    /// `OperationInvalid` where it is active.
    pub fn may_undefine(&mut self, uuid: Uuid) -> Result<(), Refusal>
        ghost number: { ℕ }
        requires { self.old.chapter < 2 ^ 62 }
        ensures { MayCall number (call.Undefine uuid) result self.old self.new }
    {
        let tested = self.table.may_undefine(uuid);
        mark_refusal(&mut self.chronicle, uuid, &tested);
        plain(self.table.alloc(), tested)
    }

    /// Whether it may be said of a pool that it is started where the daemon starts. `NoPool`
    /// where there is none of this identifier.
    pub fn may_autostart(&mut self, uuid: Uuid, on: bool) -> Result<(), Refusal>
        ghost number: { ℕ }
        requires { self.old.chapter < 2 ^ 62 }
        ensures { MayCall number (call.Autostart uuid on) result self.old self.new }
    {
        let tested = self.table.may_change(uuid);
        mark_autostart(&mut self.chronicle, uuid, on, &tested);
        plain(self.table.alloc(), tested)
    }

    /// Defines a pool, once the store has it. It takes no memory.
    pub fn define(&mut self, def: PoolDef) -> Result<(), Refusal>
        ghost number: { ℕ }
        requires { CanCall (call.Define def) self.old }
        ensures done { result ≡ Ok tt }
        ensures called { self.new ≡ with_call number (call.Define def) self.old }
    {
        mark_def_done(&mut self.chronicle, &def);
        self.table.define(def);
        Ok(())
    }

    /// Takes a pool out, once the store has dropped it. It takes no memory.
    pub fn undefine(&mut self, uuid: Uuid) -> Result<(), Refusal>
        ghost number: { ℕ }
        requires { CanCall (call.Undefine uuid) self.old }
        ensures done { result ≡ Ok tt }
        ensures called { self.new ≡ with_call number (call.Undefine uuid) self.old }
    {
        mark_done(&mut self.chronicle, uuid);
        self.table.undefine(uuid);
        Ok(())
    }

    /// Says of a pool whether it is started where the daemon starts, once the store has it. It
    /// takes no memory.
    pub fn autostart(&mut self, uuid: Uuid, on: bool) -> Result<(), Refusal>
        ghost number: { ℕ }
        requires { CanCall (call.Autostart uuid on) self.old }
        ensures done { result ≡ Ok tt }
        ensures called { self.new ≡ with_call number (call.Autostart uuid on) self.old }
    {
        mark_autostart_done(&mut self.chronicle, uuid, on);
        self.table.set_autostart(uuid, on);
        Ok(())
    }

    /// The store refused the change of the call that might be done. Its mark is that refusal.
    pub fn refuse(&mut self, refusal: Refusal)
        ghost asked: { ℕ × PoolCall }
        requires stored { IsStored asked.1 }
        requires can { CanCall asked.1 self.old }
        ensures { self.new ≡ with_mark (record { number = asked.0; call = asked.1; answer = Refused refusal }) self.old }
    {
        mark_refused(&mut self.chronicle, &refusal);
    }

    /// Starts a pool. `NoPool` where there is none of this identifier, `OperationInvalid` where
    /// it is active.
    pub fn start(&mut self, uuid: Uuid) -> Result<(), Refusal>
        ghost number: { ℕ }
        requires { self.old.chapter < 2 ^ 62 }
        ensures { HasCalled number (call.Start uuid) (told result) self.old self.new }
    {
        let started = self.table.start(uuid);
        mark_uuid(&mut self.chronicle, uuid, &started);
        plain(self.table.alloc(), started)
    }

    /// Stops a pool, which keeps its volumes. `NoPool` where there is none of this identifier,
    /// `OperationInvalid` where it is inactive.
    pub fn stop(&mut self, uuid: Uuid) -> Result<(), Refusal>
        ghost number: { ℕ }
        requires { self.old.chapter < 2 ^ 62 }
        ensures { HasCalled number (call.Stop uuid) (told result) self.old self.new }
    {
        let stopped = self.table.stop(uuid);
        mark_uuid(&mut self.chronicle, uuid, &stopped);
        plain(self.table.alloc(), stopped)
    }

    /// Makes a volume in an active pool. `NoPool` where there is none of this identifier,
    /// `OperationInvalid` where it is inactive, `VolumeExists` where it has a volume of this name,
    /// `ListFull` where it has 256, and `InvalidArgument`, with both numbers, where the allocations of
    /// its volumes would pass its capacity.
    pub fn make_volume(&mut self, pool: Uuid, def: VolDef) -> Result<(), Refusal>
        ghost number: { ℕ }
        requires { self.old.chapter < 2 ^ 62 }
        ensures { HasCalled number (call.MakeVolume pool def) (told result) self.old self.new }
    {
        let asked = Snapshot::of(&def);
        let made = self.table.make_volume(pool, def);
        mark_made(&mut self.chronicle, pool, &asked, &made);
        plain(self.table.alloc(), made)
    }

    /// Deletes a volume of an active pool. `NoPool` where there is none of this identifier,
    /// `OperationInvalid` where it is inactive, `NoVolume` where it has no volume of this name.
    pub fn drop_volume(&mut self, pool: Uuid, name: &Name) -> Result<(), Refusal>
        ghost number: { ℕ }
        requires { self.old.chapter < 2 ^ 62 }
        ensures { HasCalled number (call.DropVolume pool name.now) (told result) self.old self.new }
    {
        let deleted = self.table.drop_volume(pool, name);
        mark_deleted(&mut self.chronicle, pool, name, &deleted);
        plain(self.table.alloc(), deleted)
    }

    /// The pools by rising name.
    pub fn list(&self) -> Result<PoolRowList, NoMemory>
        ensures { IfOk result (AreRows (pools_of self.now)) }
    {
        self.table.rows()
    }

    /// The definition of a pool. `NoPool` where there is none of this identifier.
    pub fn desc(&self, uuid: Uuid) -> Result<PoolDef, Refusal>
        ensures { IsRead IsSame (described uuid (pool_of uuid_of uuid (pools_of self.now))) result }
    {
        plain(self.table.alloc(), self.table.desc(uuid))
    }

    /// The names of a pool's volumes, by rising name. `NoPool` where there is none of this identifier,
    /// `OperationInvalid` where it is inactive.
    pub fn volumes(&self, pool: Uuid) -> Result<NameList, Refusal>
        ensures { IsRead AreNames (volumes_in pool (pool_of uuid_of pool (pools_of self.now))) result }
    {
        plain(self.table.alloc(), self.table.volumes(pool))
    }

    /// The definition of a volume. `NoPool` where there is no pool of this identifier,
    /// `OperationInvalid` where it is inactive, `NoVolume` where it has no volume of this name.
    pub fn volume(&self, pool: Uuid, name: &Name) -> Result<VolDef, Refusal>
        ensures { IsRead IsSame (volume_in name.now (volumes_in pool (pool_of uuid_of pool (pools_of self.now)))) result }
    {
        plain(self.table.alloc(), self.table.volume(pool, name))
    }

    /// The number of the chapter.
    pub fn chapter(&self) -> u64
        ensures { result ≡ self.now.chapter }
    {
        self.chronicle.chapter()
    }

    /// How many marks the chapter has.
    pub fn marks(&self) -> u64
        ensures { result ≡ length self.now.marks }
    {
        self.chronicle.marks()
    }
}

// A history that begins with these pools.
fn begin(_table: &Table) -> Chronicle
    ghost base: { Pools }
    ensures { result ≡ record { chapter = 0; base = base; marks = [] } }
{
    Chronicle::begin()
}
