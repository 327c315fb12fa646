// Slots by the names of what they hold, or by the identifiers.
ghost use Rattle.std.specs.Prelude.{◌≡◌, List, ℕ, IfOk, map, OnOk, OnErr, None, Some};
ghost use Rattle.std.specs.BTreeMap.{IsOrdered};
ghost use Rattle.std.specs.Cmp.Lexicographic.{slice_cmp};
ghost use Rattle.std.specs.Ordering.{nat_cmp};
ghost use Rattle.object_list.specs.Index.{slot_at, Updates, Stays};

use std::alloc::Global;
use std::collections::BTreeMap;
use types_base::NoMemory;

/// A map from bytes to slots.
#[derive(Drop)]
pub struct SlotIndex {
    slots: BTreeMap<Vec<u8>, u32>,
    alloc: Global,
}

impl SlotIndex {
    /// An empty one.
    pub(crate) fn new(alloc: Global) -> SlotIndex
        ensures { (bytes : List ℕ) → slot_at result bytes ≡ None }
    {
        SlotIndex {
            slots: BTreeMap::new(alloc),
            alloc,
        }
    }

    /// The slot of these bytes.
    pub(crate) fn get(&self, bytes: &[u8]) -> Option<u32>
        ensures { result ≡ slot_at self.now bytes.now }
    {
        self.slots.get(bytes).copied()
    }

    /// Gives these bytes a slot.
    pub(crate) fn insert(&mut self, bytes: &[u8], slot: u32) -> Result<(), NoMemory>
        ensures ok { OnOk result (Updates bytes.now (Some slot) self.old self.new) }
        ensures err { OnErr result (Stays self.old self.new) }
    {
        let key = Vec::from_slice(self.alloc, bytes)?;
        match self.slots.insert(key, slot) {
            Ok(_) => Ok(()),
            Err(_) => Err(NoMemory),
        }
    }

    /// The slots, by rising bytes.
    pub(crate) fn in_order(&self) -> Result<Vec<u32>, NoMemory>
        ensures slots { IfOk result (λ slots. slots.items ≡ map (λ e. e.1) self.now.slots.entries) }
        ensures ordered { IsOrdered (λ x y. slice_cmp nat_cmp x.items y.items) self.now.slots }
    {
        Ok(self.slots.values().copied().collect(self.alloc)?)
    }

    /// Takes the slot of these bytes away. It takes no memory.
    pub(crate) fn remove(&mut self, bytes: &[u8])
        ensures { Updates bytes.now None self.old self.new }
    {
        self.slots.remove(bytes);
    }
}
