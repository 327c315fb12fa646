// The slots of a guest's devices, and one that is free.
ghost use Rattle.std.specs.Prelude.{◌≡◌};
ghost use Rattle.domain_spec.specs.Devices.{free_slot};
ghost use Rattle.hotplug_core.specs.Slots.{MarksTaken};

// The slots 0x02 to 0x1f as bits: those that a guest has for devices.
const DEVICE_SLOTS: u32 = 0xffff_fffc;

// A word whose bit n says whether a device has slot n.
fn taken_slots(slots: &[u32]) -> u32
    ensures { MarksTaken slots.now result }
{
    let mut word = 0;
    for slot in slots {
        if *slot < 32 {
            word |= 1 << *slot;
        }
    }
    word
}

/// The least slot that no device has.
pub fn free_slot(slots: &[u32]) -> Option<u32>
    ensures { result ≡ free_slot slots.now }
{
    let free = !taken_slots(slots) & DEVICE_SLOTS;
    if free == 0 {
        None
    } else {
        Some(free.trailing_zeros())
    }
}
