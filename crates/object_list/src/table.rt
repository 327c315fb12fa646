// The slots, with an index by name and one by identifier.
ghost use Rattle.std.specs.Prelude.{◌≡◌, ℕ, ◌+◌, ◌<◌, ◌≤◌, ◌^◌, nat_lt, is_some, length, IfNone, IfOk, IfSome, OnOk, OnErr, option_map, option_to_list, None, Some, slice_set};
ghost use Rattle.book_spec.specs.Slots.{all_holders, entry_in, free_slots, least_free_slot, name_of, released, slot_of, uuid_of, held_by};
ghost use Rattle.object_list.specs.Names.{AreNames, row_of, rows_of};
ghost use Rattle.object_list.specs.Table.{GoesOut, Holds, IsNew, Remains};

use crate::free_slots::FreeSlots;
use crate::index::SlotIndex;
use crate::row::Row;
use crate::slot_name::{SlotName, SlotNameList};
use std::alloc::Global;
use std::marker::Model;
use types_base::{Front, ListOf, MOST_DOMAINS, Name, NoMemory, TryCopy, Uuid};

/// So many holders there are at most.
const MOST_HOLDERS: u64 = 1 << 62;

/// The slots of the list. Contracts see what each holds.
#[derive(Drop)]
pub struct Table {
    rows: Vec<Option<Row>>,
    by_name: SlotIndex,
    by_uuid: SlotIndex,
    free: FreeSlots,
    holders: u64,
}

impl Model for Table {
    ghost use Rattle.book_spec.specs.Slots.{Slots};
    ghost use Rattle.object_list.specs.Table.{IsTable};

    ghost Value = { Slots };

    ghost view = { λ t. t.rows.items };

    ghost invariant = { λ t. IsTable t.rows.items t.by_name t.by_uuid t.free t.holders };
}

impl Table {
    /// A table whose slots are all free.
    pub(crate) fn new(alloc: Global) -> Result<Table, NoMemory>
        ensures free { IfOk result (λ table. table ≡ free_slots) }
        ensures most { IfOk result (λ table. all_holders table ≤ 2 ^ 62) }
    {
        let mut rows = Vec::with_capacity(alloc, MOST_DOMAINS)?;
        for _ in 0..MOST_DOMAINS {
            rows.push_reserved(None);
        }
        Ok(Table {
            rows,
            by_name: SlotIndex::new(alloc),
            by_uuid: SlotIndex::new(alloc),
            free: FreeSlots::all(),
            holders: 0,
        })
    }

    /// The slot of the domain of this name, if there is one. It need not be a name.
    pub(crate) fn slot_of_name(&self, name: &[u8]) -> Option<u32>
        ensures { result ≡ slot_of name_of name.now self.now }
    {
        self.by_name.get(name)
    }

    /// The slot of the domain of this identifier, if there is one.
    pub(crate) fn slot_of_uuid(&self, uuid: Uuid) -> Option<u32>
        ensures { result ≡ slot_of uuid_of uuid self.now }
    {
        self.by_uuid.get(uuid.as_bytes())
    }

    /// The least free slot, if one is free.
    pub(crate) fn least_free(&self) -> Option<u32>
        ensures { result ≡ least_free_slot self.now }
    {
        self.free.least()
    }

    /// What a slot holds.
    pub(crate) fn get(&self, slot: u32) -> Option<&Row>
        ensures { option_map (λ row. row.now) result ≡ entry_in self.now slot }
    {
        self.rows.get(slot as usize)?.as_ref()
    }

    /// The domains with their slots, by rising name.
    pub(crate) fn names(&self) -> Result<SlotNameList, NoMemory>
        ensures { IfOk result (AreNames self.now) }
    {
        let slots = self.by_name.in_order()?;
        names_of(
            *self.rows.allocator(),
            self.rows.as_slice(),
            slots.as_slice(),
        )
    }

    /// Whether there may be a holder more.
    pub(crate) fn has_room(&self) -> bool
        ensures room { result ≡ nat_lt (all_holders self.now) (2 ^ 62) }
        ensures most { all_holders self.now ≤ 2 ^ 62 }
    {
        self.holders < MOST_HOLDERS
    }

    /// Holds a slot that holds something, once more.
    pub(crate) fn hold(&mut self, slot: u32)
        ghost number: { ℕ }
        requires { all_holders self.old < 2 ^ 62 }
        ensures held { self.new ≡ slice_set self.old slot (option_map (held_by number) (entry_in self.old slot)) }
        ensures most { all_holders self.new ≤ 2 ^ 62 }
    {
        if hold_row(&mut self.rows, slot as usize) {
            self.holders += 1;
        }
    }

    /// Puts a domain into a free slot.
    pub(crate) fn put(&mut self, slot: u32, row: Row) -> Result<(), NoMemory>
        requires free { IsNew slot row.name row.uuid self.old }
        requires room { all_holders self.old + length row.holders ≤ 2 ^ 62 }
        ensures ok { OnOk result (self.new ≡ slice_set self.old slot (Some row)) }
        ensures err { OnErr result (self.new ≡ self.old) }
        ensures most { all_holders self.new ≤ 2 ^ 62 }
    {
        let holders = row.holders();
        self.by_name.insert(row.name().as_bytes(), slot)?;
        if self.by_uuid.insert(row.uuid().as_bytes(), slot).is_err() {
            self.by_name.remove(row.name().as_bytes());
            return Err(NoMemory);
        }
        self.rows[slot as usize] = Some(row);
        self.free.take(slot);
        self.holders += holders;
        Ok(())
    }

    /// Releases a slot, which is free where nobody holds it any more and it is not occupied.
    pub(crate) fn release(&mut self, slot: u32, front: Front, occupied: bool)
        ghost number: { ℕ }
        requires { Holds number slot self.old }
        ensures released { self.new ≡ slice_set self.old slot (released number front occupied (entry_in self.old slot)) }
        ensures fewer { all_holders self.new + 1 ≡ all_holders self.old }
    {
        let out = release_row(&mut self.rows, slot as usize, front, occupied);
        self.holders -= 1;
        if let Some(row) = out {
            self.by_name.remove(row.name().as_bytes());
            self.by_uuid.remove(row.uuid().as_bytes());
            self.free.give(slot);
        }
    }
}

// The domains in these slots, in this order.
fn names_of(alloc: Global, rows: &[Option<Row>], slots: &[u32]) -> Result<SlotNameList, NoMemory>
    ensures { IfOk result (λ names. names ≡ rows_of rows.now slots.now) }
{
    let mut names = Vec::with_capacity(alloc, slots.len())?;
    for slot in slots {
        match name_in(rows, *slot)? {
            None => {}
            Some(name) => names.push(name)?,
        }
    }
    Ok(ListOf::of(names))
}

fn row_in(rows: &[Option<Row>], slot: u32) -> Option<&Row>
    ensures { option_map (λ row. row.now) result ≡ entry_in rows.now slot }
{
    rows.get(slot as usize)?.as_ref()
}

// The domain in this slot, if one is there.
fn name_in(rows: &[Option<Row>], slot: u32) -> Result<Option<SlotName>, NoMemory>
    ensures { IfOk result (λ name. option_to_list name ≡ row_of slot (entry_in rows.now slot)) }
{
    let Some(row) = row_in(rows, slot) else {
        return Ok(None);
    };
    Ok(Some(SlotName {
        name: row.name().copy()?,
        uuid: row.uuid(),
        slot,
    }))
}

// Holds what is in a row once more. Whether something is there.
fn hold_row(rows: &mut Vec<Option<Row>>, slot: usize) -> bool
    ghost number: { ℕ }
    requires { all_holders rows.old.items < 2 ^ 62 }
    ensures held { rows.new.items ≡ slice_set rows.old.items slot (option_map (held_by number) (entry_in rows.old.items slot)) }
    ensures some { result ≡ is_some (entry_in rows.old.items slot) }
{
    if slot >= rows.len() {
        return false;
    }
    let Some(mut row) = rows[slot].take() else {
        return false;
    };
    row.hold();
    rows[slot] = Some(row);
    true
}

// Releases what is in a row, and takes it out where it is idle then.
fn release_row(
    rows: &mut Vec<Option<Row>>,
    slot: usize,
    front: Front,
    occupied: bool,
) -> Option<Row>
    ghost number: { ℕ }
    requires { Holds number slot rows.old.items }
    ensures left { rows.new.items ≡ slice_set rows.old.items slot (released number front occupied (entry_in rows.old.items slot)) }
    ensures out { IfSome result (λ row. GoesOut row slot rows.old.items rows.new.items) }
    ensures stays { IfNone result (Remains slot rows.old.items rows.new.items) }
{
    let Some(mut row) = rows[slot].take() else {
        return None;
    };
    row.release(front, occupied);
    if row.is_idle() {
        return Some(row);
    }
    rows[slot] = Some(row);
    None
}
