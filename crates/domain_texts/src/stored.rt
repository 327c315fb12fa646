// Which domain a definition in a store is of.
ghost use Rattle.std.specs.Prelude.{◌≡◌, ◌≤◌, IfOk, IfSome, is_none, length};
ghost use Rattle.std.specs.List.{list_any};
ghost use Rattle.types_base.specs.Limits.{most_text_bytes};
ghost use Rattle.domain_texts.specs.Kept.{has_addresses, is_own, names_uuid, own, stored, tells_title};

use crate::reading::read_domain;
use crate::title::title_of;
use std::alloc::Global;
use store_spec::{Entry, Version};
use types_base::{DomainDef, Interface, NoMemory, OrNoMemory, Text, Uuid};

fn names_uuid(uuid: Uuid, own: Option<Uuid>) -> bool
    ensures { result ≡ names_uuid uuid own }
{
    match own {
        None => true,
        Some(own) => own.as_bytes() == uuid.as_bytes(),
    }
}

fn tells_title(version: Version, title: &Text, def: &DomainDef) -> bool
    ensures { result ≡ tells_title version title.now def.now }
{
    match version {
        Version::One => true,
        Version::Two => title.as_str() == title_of(def),
    }
}

fn lacks_address(interface: &Interface) -> bool
    ensures { result ≡ is_none interface.now.mac }
{
    interface.mac.is_none()
}

fn lack_addresses(interfaces: &[Interface]) -> bool
    ensures { result ≡ list_any (λ i. is_none i.mac) interfaces.now }
{
    interfaces.iter().any(|interface| lacks_address(interface))
}

fn has_addresses(def: &DomainDef) -> bool
    ensures { result ≡ has_addresses def.now }
{
    !lack_addresses(def.interfaces.as_slice())
}

fn is_own(version: Version, uuid: Uuid, entry: &Entry, def: &DomainDef) -> bool
    ensures { result ≡ is_own version uuid entry.now def.now }
{
    def.name.as_bytes() == entry.name.as_bytes()
        && names_uuid(uuid, def.uuid)
        && tells_title(version, &entry.title, def)
        && has_addresses(def)
}

fn identified(def: DomainDef, uuid: Uuid) -> DomainDef
    ensures { result ≡ record def { uuid = Some uuid } }
{
    let mut def = def;
    def.uuid = Some(uuid);
    def
}

/// The definition of the domain of this identifier that the entry of its file holds. None where its text has no
/// reading, names another identifier or name, has an interface without an address, or has another title than the
/// file, unless that is of version 1.
#[tactic(auto, unfolding(crate::specs::Kept::stored))]
pub fn read_stored(
    alloc: Global,
    version: Version,
    uuid: Uuid,
    entry: &Entry,
) -> Result<Option<DomainDef>, NoMemory>
    ensures stored { IfOk result (λ def. def ≡ stored version uuid entry.now) }
    ensures short { IfOk result (λ def. IfSome def (λ _. length entry.now.text ≤ most_text_bytes)) }
{
    match read_domain(alloc, entry.text.as_bytes()) {
        Ok(def) => {
            if is_own(version, uuid, entry, &def) {
                return Ok(Some(identified(def, uuid)));
            }
            drop(def);
            Ok(None)
        }
        Err(OrNoMemory::Fault(kept)) => {
            drop(kept);
            Ok(None)
        }
        Err(OrNoMemory::NoMemory) => Err(NoMemory),
    }
}
