// Definitions that claim a slot.
ghost use Rattle.std.specs.Prelude.{◌≡◌};
ghost use Rattle.outcome_spec.specs.Below.store_asks.Asks as spec;
ghost use Rattle.virt_types.specs.Drawn.{IsMadeOfDrawn};
ghost use Rattle.request_asks.specs.Claims.{IsClaimed, IsClaimedBy};

use crate::refusing::refuse;
use outcome_spec::read_domain;
use slot_holds::Hold;
use std::alloc::Global;
use virt_types::{
    Boxed, DomainDef, NoMemory, OrNoMemory, Random, Refusal, RefusalCode, Text, TryCopy, Uuid, both,
};
use xml_fill::fill_domain;

/// A definition that lacks nothing, and the claim of the slot of its domain.
#[derive(Drop)]
pub(crate) struct Claimed {
    pub(crate) hold: Hold,
    pub(crate) definition: Boxed<DomainDef>,
}

// The identifier of a domain of this definition.
fn identifier(definition: &DomainDef) -> Uuid
    ensures { result ≡ spec.identifier definition.now }
{
    match definition.uuid {
        Some(uuid) => uuid,
        None => Uuid::nil(),
    }
}

/// Fills in what a definition lacks, and claims its slot. The name is copied and the definition boxed first, so that no
/// words are drawn where there is no memory for them.
pub(crate) fn claim<R: Random>(
    alloc: Global,
    read: DomainDef,
    random: &mut R,
) -> Result<Claimed, NoMemory>
    ensures { IsMadeOfDrawn (λ words. IsClaimed words read result) (R.drawn random.old) (R.drawn random.new) }
{
    let name = read.name.copy();
    let (name, mut definition) = match both(name, Boxed::new(alloc, read)) {
        Ok(made) => made,
        Err(NoMemory) => return Err(NoMemory),
    };
    fill_domain(alloc, definition.as_mut(), random);
    let uuid = identifier(definition.as_ref());
    Ok(Claimed {
        hold: Hold::Claim { name, uuid },
        definition,
    })
}

/// The same of the definition that a text is.
pub(crate) fn claim_text<R: Random>(
    alloc: Global,
    xml: &Text,
    random: &mut R,
) -> Result<Claimed, OrNoMemory<Refusal>>
    ensures { IsMadeOfDrawn (λ words. IsClaimedBy words xml.now result) (R.drawn random.old) (R.drawn random.new) }
{
    match read_domain(alloc, xml.as_bytes()) {
        Ok(read) => match claim(alloc, read, random) {
            Ok(claimed) => Ok(claimed),
            Err(NoMemory) => Err(OrNoMemory::NoMemory),
        },
        Err(OrNoMemory::Fault(kept)) => {
            Err(refuse(alloc, RefusalCode::BadDefinition, kept.as_str()))
        }
        Err(OrNoMemory::NoMemory) => Err(OrNoMemory::NoMemory),
    }
}
