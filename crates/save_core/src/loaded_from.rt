// What an operation loads, where it lies.
ghost use Rattle.std.specs.Prelude.{◌≡◌, option_map};
ghost use Rattle.domain_spec.specs.PhaseAsks.{loaded_of};
ghost use Rattle.domain_spec.specs.Snapshots.{snapshot_ran};
ghost use Rattle.save_core.specs.Steps.{loaded_now};

use core_rules::is_running;
use virt_types::{Bytes, Call, Domain, DomainDef, Snap};

/// A guest's state as it lies in an image or a snapshot.
#[derive(Drop)]
pub struct LoadedFrom<'a> {
    /// The definition that the guest had.
    pub definition: &'a DomainDef,
    /// Whether it ran.
    pub ran: bool,
    /// The state.
    pub saved: &'a Bytes,
}

fn snapshot_ran(snap: &Snap) -> bool
    ensures { result ≡ snapshot_ran snap.now }
{
    match snap.run {
        None => false,
        Some(run) => is_running(run),
    }
}

/// What an operation loads: the image, or the snapshot's state.
pub fn loaded_of<'a>(domain: &'a Domain, call: &'a Call) -> Option<LoadedFrom<'a>>
    ensures { option_map loaded_now result ≡ loaded_of domain.now call.now }
{
    match call {
        Call::Restore {
            definition,
            running,
            saved,
        }
        | Call::Prepare {
            definition,
            running,
            saved,
        } => Some(LoadedFrom {
            definition: definition.as_ref(),
            ran: *running,
            saved: saved.as_ref(),
        }),
        Call::Revert(name) => match domain.snaps.find(name) {
            None => None,
            Some(snap) => Some(LoadedFrom {
                definition: &snap.def,
                ran: snapshot_ran(snap),
                saved: &snap.saved,
            }),
        },
        _ => None,
    }
}
