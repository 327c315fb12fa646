// What needs no lookup.
ghost use Rattle.std.specs.Prelude.{◌≡◌, ◌≤◌, ◌∷◌, [], IfOk, IfSome, length, slice_get};
ghost use Rattle.command_spec.specs.declared.limits.TheConstants.{MOST_WORD_BYTES};
ghost use Rattle.virsh_plan.specs.Plan as spec;
ghost use Rattle.virsh_plan.specs.Sendable.{IsSendable};

use crate::step::only;
use command_spec::{FileVerb, PlainVerb};
use std::alloc::Global;
use virt_types::{NoMemory, Request, Text};

/// As many names as a list may have.
const MOST_NAMES: i32 = 1024;

/// What lists everything. The active networks are asked for first.
#[tactic(auto, using(crate::proofs::Small::one_sendable, crate::proofs::Small::sendable_lists))]
pub(crate) fn plain_request(verb: PlainVerb, answered: usize) -> Option<Request>
    ensures request { result ≡ slice_get (spec.plain_requests verb) answered }
    ensures sendable { IfSome result IsSendable }
{
    match verb {
        PlainVerb::List => only(Request::ListAll, answered),
        PlainVerb::NetList => match answered {
            0 => Some(Request::ListNetworks { most: MOST_NAMES }),
            1 => Some(Request::ListDefinedNetworks { most: MOST_NAMES }),
            _ => None,
        },
        PlainVerb::PoolList => only(Request::PoolList, answered),
    }
}

/// What a command for a file asks with its text.
#[tactic(auto, using(crate::proofs::Small::sendable_text))]
pub(crate) fn file_request(
    alloc: Global,
    verb: FileVerb,
    xml: &str,
    answered: usize,
) -> Result<Option<Request>, NoMemory>
    requires { length xml.now ≤ MOST_WORD_BYTES }
    ensures request { IfOk result (λ next. next ≡ slice_get (spec.file_request verb xml.now ∷ []) answered) }
    ensures sendable { IfOk result (λ next. IfSome next IsSendable) }
{
    if answered > 0 {
        return Ok(None);
    }
    let xml = Text::copy_of(alloc, xml)?;
    match verb {
        FileVerb::Define => Ok(Some(Request::DomainDefineXml { xml })),
        FileVerb::Create => Ok(Some(Request::DomainCreateXml { xml, flags: 0 })),
        FileVerb::NetDefine => Ok(Some(Request::NetworkDefineXml { xml })),
        FileVerb::PoolDefine => Ok(Some(Request::PoolDefine { xml })),
    }
}

/// What restores an image.
#[tactic(auto, using(crate::proofs::Small::sendable_lookup))]
pub(crate) fn restore_request(
    alloc: Global,
    image: &Text,
    answered: usize,
) -> Result<Option<Request>, NoMemory>
    requires { length image.now ≤ MOST_WORD_BYTES }
    ensures request { IfOk result (λ next. next ≡ slice_get (Request.DomainRestore image.now ∷ []) answered) }
    ensures sendable { IfOk result (λ next. IfSome next IsSendable) }
{
    if answered > 0 {
        return Ok(None);
    }
    let from = Text::copy_of(alloc, image.as_str())?;
    Ok(Some(Request::DomainRestore { from }))
}
