// A guest, as contracts name it.
ghost use Rattle.std.specs.Prelude.{◌≡◌};
ghost use Rattle.monitor_link.specs.Views.{guest_of};
ghost use Rattle.monitor_link.specs.declared.guest.Guest.{Guest as TheGuest};

use types_ghost::Said;
use virt_types::DomainDef;

/// A guest: the definition that it was made of, and the number of its boot. Contracts name guests so, and no value of it is
/// kept.
#[derive(Drop)]
pub struct Guest {
    /// What it was made of.
    pub definition: DomainDef,
    /// The number of its boot.
    pub boot: u64,
}

/// The guest of this definition and boot, for the parts of a link to it.
pub fn said_guest(definition: &DomainDef, boot: u64) -> Said<Guest>
    ensures { result.value ≡ guest_of definition.now boot }
{
    named_as(definition, boot)
}

// The guest is named in two steps, since a pick sees the callee's arguments alone.
fn named_as(_definition: &DomainDef, _boot: u64) -> Said<Guest>
    ghost guest: { TheGuest }
    ensures { result.value ≡ guest }
{
    Said::named()
}
