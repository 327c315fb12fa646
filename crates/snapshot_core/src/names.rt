// The names of snapshots that are given none.
ghost use Rattle.std.specs.Prelude.{◌≡◌, IfOk, drop};
ghost use Rattle.domain_spec.specs.Snapshots.{free_number, numbered_name, snapshot_name};

use std::alloc::Global;
use virt_types::{Domain, Name, NoMemory, SnapInfo, SnapList, TryCopy};

// snap1, snap2 and so on.
fn numbered_name(alloc: Global, n: u64) -> Result<Name, NoMemory>
    ensures { IfOk result (λ name. name ≡ numbered_name n) }
{
    let text = format!(in alloc; "snap{n}")?;
    match Name::read(alloc, text.as_bytes()) {
        Ok(name) => Ok(name),
        Err(_) => Err(NoMemory),
    }
}

// The first free name from this number on, after so many were tried.
fn free_name(alloc: Global, snaps: &SnapList, tried: usize, n: u64) -> Result<Name, NoMemory>
    ensures { IfOk result (λ name. name ≡ numbered_name (free_number (drop tried snaps.now) snaps.now n)) }
{
    let name = numbered_name(alloc, n)?;
    if tried >= snaps.len() {
        return Ok(name);
    }
    match snaps.find(&name) {
        None => Ok(name),
        Some(_) => match n.checked_add(1) {
            None => Err(NoMemory),
            Some(after) => free_name(alloc, snaps, tried + 1, after),
        },
    }
}

/// The name of a new snapshot.
pub(crate) fn snapshot_name(
    alloc: Global,
    domain: &Domain,
    info: &SnapInfo,
) -> Result<Name, NoMemory>
    ensures { IfOk result (λ name. name ≡ snapshot_name domain.now info.now) }
{
    match &info.name {
        None => free_name(alloc, &domain.snaps, 0, 1),
        Some(name) => name.copy(),
    }
}
