// What is asked of a domain.
ghost use Rattle.std.specs.Prelude.{◌≡◌, ◌≤◌, ◌<◌, ◌^◌, ◌∷◌, [], IfOk, IfSome, length, slice_get};
ghost use Rattle.command_spec.specs.declared.limits.TheConstants.{MOST_DIGITS, MOST_WORD_BYTES};
ghost use Rattle.procedure_spec.specs.Arguments.{IsDomain};
ghost use Rattle.procedure_spec.specs.Requests.{asks_of_domain};
ghost use Rattle.virsh_plan.specs.Asks as spec;
ghost use Rattle.virsh_plan.specs.Plan.{on_domain as then_on_domain};
ghost use Rattle.virsh_plan.specs.Sendable.{IsSendable, IsSmall};
ghost use Rattle.virsh_plan.specs.Targets.{domain_target as target_of};

use crate::known::known_uuid;
use crate::step::only;
use command_spec::{DomainFileVerb, DomainVerb, Flag, ImageVerb, NumberVerb, SnapshotVerb};
use std::alloc::Global;
use virt_types::{DomainRef, DomainRequest, DomainTarget, NoMemory, Request, Text, Value};

// The bit for the stored definition (VIR_DOMAIN_XML_INACTIVE).
fn stored_bit(option: Option<Flag>) -> u32
    ensures { result ≡ spec.stored_bit option }
{
    match option {
        Some(_) => 2,
        None => 0,
    }
}

fn autostart_number(option: Option<Flag>) -> i32
    ensures { result ≡ spec.autostart_number option }
{
    match option {
        Some(_) => 0,
        None => 1,
    }
}

fn children_number(option: Option<Flag>) -> i32
    ensures { result ≡ spec.children_number option }
{
    match option {
        Some(_) => 1,
        None => 0,
    }
}

/// What a command for a domain alone asks after so many answers from it.
#[tactic(auto, using(crate::proofs::Small::one_of_domain, crate::proofs::Small::small_nothing, crate::proofs::Small::small_word, crate::proofs::Small::small_integer))]
pub(crate) fn domain_ask(
    verb: DomainVerb,
    option: Option<Flag>,
    answered: usize,
) -> Option<DomainRequest>
    ensures ask { result ≡ slice_get (spec.domain_asks verb option) answered }
    ensures small { IfSome result (λ it. IsSmall (asks_of_domain it).1) }
{
    match verb {
        DomainVerb::Info => match answered {
            0 => Some(DomainRequest::GetInfo),
            1 => Some(DomainRequest::GetAutostart),
            _ => None,
        },
        DomainVerb::State => only(DomainRequest::GetInfo, answered),
        DomainVerb::Start => only(DomainRequest::Create, answered),
        DomainVerb::Shutdown => only(DomainRequest::Shutdown, answered),
        DomainVerb::Reboot => only(DomainRequest::Reboot { flags: 0 }, answered),
        DomainVerb::Suspend => only(DomainRequest::Suspend, answered),
        DomainVerb::Resume => only(DomainRequest::Resume, answered),
        DomainVerb::Destroy => only(DomainRequest::Destroy, answered),
        DomainVerb::Undefine => only(DomainRequest::Undefine, answered),
        DomainVerb::Autostart => only(
            DomainRequest::SetAutostart {
                autostart: autostart_number(option),
            },
            answered,
        ),
        DomainVerb::DumpXml => only(
            DomainRequest::GetXmlDesc {
                flags: stored_bit(option),
            },
            answered,
        ),
        DomainVerb::JobInfo => only(DomainRequest::JobInfo, answered),
        DomainVerb::JobAbort => only(DomainRequest::JobAbort, answered),
        DomainVerb::MemStat => only(DomainRequest::MemoryStats, answered),
        DomainVerb::SnapshotList => only(DomainRequest::SnapList, answered),
    }
}

/// What a command for a domain and a number asks.
#[tactic(auto, using(crate::proofs::Small::small_nothing, crate::proofs::Small::small_word, crate::proofs::Small::small_integer))]
pub(crate) fn number_ask(verb: NumberVerb, number: u32) -> DomainRequest
    requires { number < 10 ^ MOST_DIGITS }
    ensures ask { result ≡ spec.number_ask verb number }
    ensures small { IsSmall (asks_of_domain result).1 }
{
    match verb {
        NumberVerb::SetVcpus => DomainRequest::SetVcpus { vcpus: number },
        NumberVerb::Kick => DomainRequest::Kick {
            action: number as i32,
        },
        NumberVerb::Event => DomainRequest::EventRegister,
    }
}

/// What a command for a domain and a file asks with the file's text.
#[tactic(auto, using(crate::proofs::Small::small_definition))]
pub(crate) fn text_ask(
    alloc: Global,
    verb: DomainFileVerb,
    xml: &str,
) -> Result<DomainRequest, NoMemory>
    requires { length xml.now ≤ MOST_WORD_BYTES }
    ensures ask { IfOk result (λ it. it ≡ spec.text_ask verb xml.now) }
    ensures small { IfOk result (λ it. IsSmall (asks_of_domain it).1) }
{
    let xml = Text::copy_of(alloc, xml)?;
    Ok(match verb {
        DomainFileVerb::AttachDevice => DomainRequest::AttachDevice { xml },
        DomainFileVerb::DetachDevice => DomainRequest::DetachDevice { xml },
        DomainFileVerb::SnapshotCreate => DomainRequest::SnapCreate { xml },
    })
}

/// What a command for a domain and an image asks.
#[tactic(auto, using(crate::proofs::Small::small_name, crate::proofs::Small::small_name_word))]
pub(crate) fn image_ask(
    alloc: Global,
    verb: ImageVerb,
    image: &Text,
) -> Result<DomainRequest, NoMemory>
    requires { length image.now ≤ MOST_WORD_BYTES }
    ensures ask { IfOk result (λ it. it ≡ spec.image_ask verb image.now) }
    ensures small { IfOk result (λ it. IsSmall (asks_of_domain it).1) }
{
    let to = Text::copy_of(alloc, image.as_str())?;
    Ok(match verb {
        ImageVerb::Save => DomainRequest::Save { to },
        ImageVerb::Dump => DomainRequest::CoreDump { to, flags: 0 },
    })
}

/// What a command for a snapshot asks of its domain.
#[tactic(auto, using(crate::proofs::Small::small_name, crate::proofs::Small::small_name_integer))]
pub(crate) fn snapshot_ask(
    alloc: Global,
    verb: SnapshotVerb,
    option: Option<Flag>,
    snapshot: &Text,
) -> Result<DomainRequest, NoMemory>
    requires { length snapshot.now ≤ MOST_WORD_BYTES }
    ensures ask { IfOk result (λ it. it ≡ spec.snapshot_ask verb option snapshot.now) }
    ensures small { IfOk result (λ it. IsSmall (asks_of_domain it).1) }
{
    let snapshot = Text::copy_of(alloc, snapshot.as_str())?;
    Ok(match verb {
        SnapshotVerb::Parent => DomainRequest::SnapParent { snapshot },
        SnapshotVerb::DumpXml => DomainRequest::SnapXml { snapshot },
        SnapshotVerb::Delete => DomainRequest::SnapDelete {
            snapshot,
            children: children_number(option),
        },
        SnapshotVerb::Revert => DomainRequest::SnapRevert { snapshot },
    })
}

// A domain that was looked up, as calls on it name it.
fn domain_target(alloc: Global, domain: &DomainRef) -> Result<DomainTarget, NoMemory>
    ensures target { IfOk result (λ target. target ≡ target_of domain.now) }
    ensures spelled { IfOk result (λ target. IsDomain target) }
    ensures short { IfOk result (λ target. length target.name ≤ 128) }
{
    known_uuid(&domain.uuid);
    Ok(DomainTarget {
        name: Text::copy_of(alloc, domain.name.as_str())?,
        uuid: domain.uuid,
        id: domain.id,
    })
}

/// The lookup of a domain by its name.
#[tactic(auto, using(crate::proofs::Small::sendable_lookup))]
pub(crate) fn lookup_domain(alloc: Global, name: &Text) -> Result<Option<Request>, NoMemory>
    requires { length name.now ≤ MOST_WORD_BYTES }
    ensures request { IfOk result (λ next. next ≡ Some (Request.DomainLookupByName name.now)) }
    ensures sendable { IfOk result (λ next. IfSome next IsSendable) }
{
    let name = Text::copy_of(alloc, name.as_str())?;
    Ok(Some(Request::DomainLookupByName { name }))
}

/// What is asked of the domain that was found.
#[tactic(auto, using(crate::proofs::Small::sendable_domain))]
pub(crate) fn on_domain(
    alloc: Global,
    found: &Value,
    ask: Option<DomainRequest>,
) -> Result<Option<Request>, NoMemory>
    requires { IfSome ask (λ it. IsSmall (asks_of_domain it).1) }
    ensures request { IfOk result (λ next. next ≡ then_on_domain found.now ask) }
    ensures sendable { IfOk result (λ next. IfSome next IsSendable) }
{
    match (found, ask) {
        (Value::Domain(domain), Some(request)) => {
            let domain = domain_target(alloc, domain.as_ref())?;
            Ok(Some(Request::OnDomain { domain, request }))
        }
        _ => Ok(None),
    }
}
