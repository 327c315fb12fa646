// The slots of a guest's devices.
ghost use Rattle.std.specs.Prelude.{◌≡◌, ◌+◌, ◌≤◌, IfOk, map};
ghost use Rattle.std.specs.List.{range_with_len};
ghost use Rattle.domain_spec.specs.Devices.{slots_at_start};

use std::alloc::{AllocError, Global};
use virt_types::{DomainDef, ListOf, NoMemory, SlotList};

// So many numbers, each two greater than its place.
fn two_on(alloc: Global, count: u32) -> Result<Vec<u32>, AllocError>
    requires { count + 2 ≤ 4294967295 }
    ensures { IfOk result (λ slots. slots.items ≡ map (λ at. at + 2) (range_with_len 0 count)) }
{
    (0..count).map(|at| at + 2).collect(alloc)
}

// So many slots, from 0x02 on.
#[tactic(auto, using(crate::proofs::SlotCounts::two_on))]
fn slots_counted(alloc: Global, count: u32) -> Result<SlotList, NoMemory>
    requires { count + 2 ≤ 4294967295 }
    ensures { IfOk result (λ slots. slots ≡ range_with_len 2 count) }
{
    Ok(ListOf::of(two_on(alloc, count)?))
}

/// The slots that the devices of a definition take at a start: 0x02 and on, one a device. There is
/// no memory either for more devices than there are numbers of slots.
#[tactic(auto, using(crate::proofs::SlotCounts::slots_by_count))]
pub fn slots_at_start(alloc: Global, def: &DomainDef) -> Result<SlotList, NoMemory>
    ensures { IfOk result (λ slots. slots ≡ slots_at_start def.now) }
{
    let disks = u32::try_from(def.disks.len()).map_err(|_| NoMemory)?;
    let interfaces = u32::try_from(def.interfaces.len()).map_err(|_| NoMemory)?;
    match disks.checked_add(interfaces) {
        Some(count) if count < 0xffff_fff0 => slots_counted(alloc, count),
        _ => Err(NoMemory),
    }
}
