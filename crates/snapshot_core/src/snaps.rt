// What is listed of snapshots.
ghost use Rattle.std.specs.Prelude.{◌≡◌, IfOk, filter, map};
ghost use Rattle.domain_spec.specs.Snapshots.{is_parent};

use std::alloc::Global;
use virt_types::{Name, NameList, NoMemory, SnapList};

/// The snapshots of a domain, as lists of them are asked for.
pub struct Snaps;

impl Snaps {
    /// The names of the snapshots whose parent has this name, by rising name (libvirt's
    /// `virDomainSnapshotListAllChildren`, without those that come from them).
    pub fn children(alloc: Global, snaps: &SnapList, name: &Name) -> Result<NameList, NoMemory>
        ensures { IfOk result (λ names. names ≡ map (λ snap. snap.name) (filter (λ snap. is_parent snap.parent name.now) snaps.now)) }
    {
        snaps.children(alloc, name)
    }
}
