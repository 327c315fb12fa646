// The volumes of a pool.
ghost use Rattle.std.specs.Prelude.{◌≡◌, IfOk, map, position};
ghost use Rattle.book_spec.specs.PoolReads.{AreNames};
ghost use Rattle.book_spec.specs.Volumes.{is_named};

use std::alloc::Global;
use virt_types::{ListOf, Name, NameList, NoMemory, TryCopy, VolDef};

fn has_name(volume: &VolDef, name: &[u8]) -> bool
    ensures { result ≡ is_named name.now volume.now }
{
    volume.name.as_bytes() == name
}

/// The place of the volume of this name, if there is one.
pub(crate) fn place_of_volume(volumes: &[VolDef], name: &[u8]) -> Option<usize>
    ensures { result ≡ position (is_named name.now) volumes.now }
{
    volumes.iter().position(|volume| has_name(volume, name))
}

fn names_of(alloc: Global, volumes: &[VolDef]) -> Result<Vec<Name>, NoMemory>
    ensures { IfOk result (λ names. names.items ≡ map (λ volume. volume.name) volumes.now) }
{
    let mut names = Vec::with_capacity(alloc, volumes.len())?;
    for volume in volumes {
        names.push(volume.name.copy()?)?;
    }
    Ok(names)
}

/// The names of the volumes, by rising name.
pub(crate) fn names_in_order(alloc: Global, volumes: &[VolDef]) -> Result<NameList, NoMemory>
    ensures { IfOk result (AreNames volumes.now) }
{
    let mut names = names_of(alloc, volumes)?;
    names.sort_by(|one, other| one.as_str().cmp(other.as_str()))?;
    Ok(ListOf::of(names))
}
