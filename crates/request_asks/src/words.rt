// What a request asks by what it says alone.
ghost use Rattle.std.specs.Prelude.{◌≡◌, [], false, None};
ghost use Rattle.outcome_spec.specs.Shown.{is_built};
ghost use Rattle.virt_types.specs.Drawn.{IsMadeOfDrawn};
ghost use Rattle.request_asks.specs.Found.{restored_from};
ghost use Rattle.request_asks.specs.Said.{IsSaid};

use crate::asked::{Asked, Listing};
use crate::defining::{create, define, prepare};
use crate::listing::list_names;
use crate::looking::{ask_domain, is_built, look_up_name, look_up_uuid};
use crate::refusing::refuse_procedure;
use std::alloc::Global;
use virt_types::{Random, Request};

// A request whose procedure is not built.
fn not_built(alloc: Global, request: &Request) -> Asked
    requires { is_built request.now ≡ false }
    ensures { IsSaid [] request.now result }
{
    Asked::refused(refuse_procedure(alloc, request))
}

/// What a request asks that is no restore. Its pass of the store is not needed.
pub(crate) fn read_words<R: Random>(alloc: Global, request: &Request, random: &mut R) -> Asked
    requires { restored_from request.now ≡ None }
    ensures { IsMadeOfDrawn (λ words. IsSaid words request.now result) (R.drawn random.old) (R.drawn random.new) }
{
    match request {
        Request::ConnectOpen { .. } => Asked::Connection,
        Request::ConnectClose => Asked::Connection,
        Request::ListAll => Asked::List(Listing::All),
        Request::Titles => Asked::List(Listing::Titles),
        Request::ListDefinedDomains { most } => list_names(alloc, *most),
        Request::DomainLookupByName { name } => look_up_name(alloc, name),
        Request::DomainLookupByUuid { uuid } => look_up_uuid(*uuid),
        Request::DomainDefineXml { xml } => define(alloc, xml, random),
        Request::DomainCreateXml { xml, .. } => create(alloc, xml, random),
        Request::MigratePrepare {
            xml,
            running,
            state,
        } => prepare(alloc, xml, *running, state, random),
        Request::OnDomain {
            domain,
            request: asked,
        } => {
            if is_built(asked) {
                ask_domain(alloc, domain, asked, random)
            } else {
                not_built(alloc, request)
            }
        }
        Request::ListDefinedNetworks { .. }
        | Request::ListNetworks { .. }
        | Request::NetworkDefineXml { .. }
        | Request::NetworkLookupByName { .. }
        | Request::PoolDefine { .. }
        | Request::PoolLookup { .. }
        | Request::PoolList
        | Request::OnNetwork { .. }
        | Request::OnPool { .. } => not_built(alloc, request),
        Request::DomainRestore { .. } => unreachable!(),
    }
}
