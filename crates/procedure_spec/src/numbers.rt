// The numbers of the procedures that requests call, once more than in the tables.
ghost use Rattle.std.specs.Prelude.{◌≡◌};
ghost use Rattle.procedure_spec.specs.Lines.{line};
ghost use Rattle.procedure_spec.specs.Requests.{asks_of_domain, asks_of_network, asks_of_pool, procedure_of};
ghost use Rattle.procedure_spec.specs.Results.{result_shape as result_shape_of};

use crate::shape::ResultShape;
use crate::table::{OWN, REMOTE, find};
use virt_types::{DomainRequest, NetworkRequest, PoolRequest, Request};

// Of a request for a domain.
fn domain_numbers(request: &DomainRequest) -> (u32, u32)
    ensures { result ≡ ((line (asks_of_domain request.now).0).program, (line (asks_of_domain request.now).0).number) }
{
    match request {
        DomainRequest::AttachDevice { .. } => (REMOTE, 8),
        DomainRequest::Create => (REMOTE, 9),
        DomainRequest::Destroy => (REMOTE, 12),
        DomainRequest::DetachDevice { .. } => (REMOTE, 13),
        DomainRequest::GetXmlDesc { .. } => (REMOTE, 14),
        DomainRequest::GetAutostart => (REMOTE, 15),
        DomainRequest::GetInfo => (REMOTE, 16),
        DomainRequest::Reboot { .. } => (REMOTE, 27),
        DomainRequest::Resume => (REMOTE, 28),
        DomainRequest::SetAutostart { .. } => (REMOTE, 29),
        DomainRequest::SetMemory { .. } => (REMOTE, 31),
        DomainRequest::SetVcpus { .. } => (REMOTE, 32),
        DomainRequest::Shutdown => (REMOTE, 33),
        DomainRequest::Suspend => (REMOTE, 34),
        DomainRequest::Undefine => (REMOTE, 35),
        DomainRequest::CoreDump { .. } => (REMOTE, 53),
        DomainRequest::Save { .. } => (REMOTE, 55),
        DomainRequest::JobInfo => (OWN, 2),
        DomainRequest::JobAbort => (OWN, 3),
        DomainRequest::SnapCreate { .. } => (OWN, 4),
        DomainRequest::SnapList => (OWN, 5),
        DomainRequest::SnapParent { .. } => (OWN, 6),
        DomainRequest::SnapDelete { .. } => (OWN, 7),
        DomainRequest::SnapRevert { .. } => (OWN, 8),
        DomainRequest::SnapXml { .. } => (OWN, 9),
        DomainRequest::EventRegister => (OWN, 10),
        DomainRequest::EventDeregister => (OWN, 11),
        DomainRequest::MemoryStats => (OWN, 14),
        DomainRequest::Kick { .. } => (OWN, 15),
        DomainRequest::MigratePerform => (OWN, 50),
        DomainRequest::MigrateConfirm { .. } => (OWN, 51),
        DomainRequest::MigrateFinish { .. } => (OWN, 53),
        DomainRequest::MigrateLimit { .. } => (OWN, 54),
    }
}

// Of a request for a network.
fn network_numbers(request: &NetworkRequest) -> (u32, u32)
    ensures { result ≡ ((line (asks_of_network request.now).0).program, (line (asks_of_network request.now).0).number) }
{
    match request {
        NetworkRequest::Create => (REMOTE, 39),
        NetworkRequest::Destroy => (REMOTE, 42),
        NetworkRequest::GetXmlDesc { .. } => (REMOTE, 43),
        NetworkRequest::SetAutostart { .. } => (REMOTE, 48),
        NetworkRequest::Undefine => (REMOTE, 49),
        NetworkRequest::Leases => (OWN, 40),
    }
}

// Of a request for a pool or one of its volumes.
fn pool_numbers(request: &PoolRequest) -> (u32, u32)
    ensures { result ≡ ((line (asks_of_pool request.now).0).program, (line (asks_of_pool request.now).0).number) }
{
    match request {
        PoolRequest::Create => (OWN, 21),
        PoolRequest::Destroy => (OWN, 22),
        PoolRequest::Undefine => (OWN, 23),
        PoolRequest::Xml => (OWN, 24),
        PoolRequest::SetAutostart { .. } => (OWN, 27),
        PoolRequest::VolCreate { .. } => (OWN, 30),
        PoolRequest::VolDelete { .. } => (OWN, 31),
        PoolRequest::VolList => (OWN, 32),
        PoolRequest::VolXml { .. } => (OWN, 33),
    }
}

/// The program and the number of the request's procedure.
pub fn call_numbers(request: &Request) -> (u32, u32)
    ensures { result ≡ ((line (procedure_of request.now)).program, (line (procedure_of request.now)).number) }
{
    match request {
        Request::ConnectOpen { .. } => (REMOTE, 1),
        Request::ConnectClose => (REMOTE, 2),
        Request::DomainCreateXml { .. } => (REMOTE, 10),
        Request::DomainDefineXml { .. } => (REMOTE, 11),
        Request::ListDefinedDomains { .. } => (REMOTE, 21),
        Request::DomainLookupByName { .. } => (REMOTE, 23),
        Request::DomainLookupByUuid { .. } => (REMOTE, 24),
        Request::ListDefinedNetworks { .. } => (REMOTE, 36),
        Request::ListNetworks { .. } => (REMOTE, 38),
        Request::NetworkDefineXml { .. } => (REMOTE, 41),
        Request::NetworkLookupByName { .. } => (REMOTE, 46),
        Request::DomainRestore { .. } => (REMOTE, 54),
        Request::ListAll => (OWN, 1),
        Request::Titles => (OWN, 16),
        Request::PoolDefine { .. } => (OWN, 20),
        Request::PoolLookup { .. } => (OWN, 25),
        Request::PoolList => (OWN, 26),
        Request::MigratePrepare { .. } => (OWN, 52),
        Request::OnDomain { request, .. } => domain_numbers(request),
        Request::OnNetwork { request, .. } => network_numbers(request),
        Request::OnPool { request, .. } => pool_numbers(request),
    }
}

/// What the reply to the request holds.
#[tactic(auto, using(crate::proofs::LinesAre::each_found))]
pub fn result_shape(request: &Request) -> ResultShape
    ensures { result ≡ result_shape_of request.now }
{
    let (program, number) = call_numbers(request);
    match find(program, number) {
        Some(row) => row.result,
        None => unreachable!(),
    }
}
