// A call as its operation keeps it: a snapshot that is given no name gets one.
ghost use Rattle.std.specs.Prelude.{◌≡◌, IfOk, Some, drop};
ghost use Rattle.domain_spec.specs.Begin.{named_call};
ghost use Rattle.domain_spec.specs.Snapshots.{free_number, numbered_name, snapshot_name};

use std::alloc::Global;
use virt_types::{Boxed, Call, Domain, Name, NoMemory, SnapInfo, SnapList, State, TryCopy, both};

// snap1, snap2 and so on.
fn numbered_name(alloc: Global, n: u64) -> Result<Name, NoMemory>
    ensures { IfOk result (λ name. name ≡ numbered_name n) }
{
    let text = format!(in alloc; "snap{n}")?;
    match Name::read(alloc, text.as_bytes()) {
        Ok(name) => Ok(name),
        Err(_) => Err(NoMemory),
    }
}

// The first free name from this number on, after so many were tried.
fn free_name(alloc: Global, snaps: &SnapList, tried: usize, n: u64) -> Result<Name, NoMemory>
    ensures { IfOk result (λ name. name ≡ numbered_name (free_number (drop tried snaps.now) snaps.now n)) }
{
    let name = numbered_name(alloc, n)?;
    if tried >= snaps.len() {
        return Ok(name);
    }
    match snaps.find(&name) {
        None => Ok(name),
        Some(_) => match n.checked_add(1) {
            None => Err(NoMemory),
            Some(after) => free_name(alloc, snaps, tried + 1, after),
        },
    }
}

fn snapshot_name(alloc: Global, domain: &Domain, info: &SnapInfo) -> Result<Name, NoMemory>
    ensures { IfOk result (λ name. name ≡ snapshot_name domain.now info.now) }
{
    match &info.name {
        None => free_name(alloc, &domain.snaps, 0, 1),
        Some(name) => name.copy(),
    }
}

// What is asked of a new snapshot, with the name that it gets.
fn named_info(alloc: Global, domain: &Domain, info: &SnapInfo) -> Result<SnapInfo, NoMemory>
    ensures { IfOk result (λ it. it ≡ record info.now { name = Some (snapshot_name domain.now info.now) }) }
{
    let (name, description) = both(snapshot_name(alloc, domain, info), info.description.copy())?;
    Ok(SnapInfo {
        name: Some(name),
        description,
    })
}

/// The call as its operation keeps it: a snapshot without a name gets the first free one.
pub fn named_call(alloc: Global, state: &State, call: &Call) -> Result<Call, NoMemory>
    ensures { IfOk result (λ it. it ≡ named_call state.now call.now) }
{
    match (state, call) {
        (State::Held(domain), Call::Snapshot(info)) => {
            let info = named_info(alloc, domain, info.as_ref())?;
            Ok(Call::Snapshot(Boxed::new(alloc, info)?))
        }
        _ => call.copy(),
    }
}
