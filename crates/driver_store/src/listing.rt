// The list of domains is opened with those that were found.
ghost use Rattle.std.specs.Prelude.{◌≡◌, ◌≤◌, ◌++◌, IfOk, OnOk, length, map};
ghost use Rattle.virt_types.specs.Limits.{most_domains};
ghost use Rattle.turn_cell.specs.Passes.{IsFirst};
ghost use Rattle.found_domains.specs.Found.{AreDistinct, name_of};
ghost use Rattle.object_list.specs.Keeping.{meaning};
ghost use Rattle.driver_store.specs.Listing as spec;
ghost use Rattle.driver_store.specs.Listing.{list_of, listed, start_of, to_start};

use found_domains::FoundDomain;
use object_list::{ListPass, ObjectList, open};
use std::alloc::Global;
use turn_cell::TurnCell;
use virt_types::{
    DomainRequest, DomainTarget, ListOf, NoMemory, Request, RequestList, Text, TryCopy,
};

// What the list is told of a domain.
fn listed(domain: &FoundDomain) -> Result<object_list::FoundDomain, NoMemory>
    ensures { IfOk result (λ told. told ≡ listed domain.now) }
{
    let name = domain.definition.name.copy()?;
    Ok(object_list::FoundDomain {
        name,
        uuid: domain.uuid,
    })
}

// The same of all.
fn all_listed(
    alloc: Global,
    domains: &[FoundDomain],
) -> Result<ListOf<object_list::FoundDomain>, NoMemory>
    ensures { IfOk result (λ told. told ≡ map listed domains.now) }
{
    let mut told = ListOf::new(alloc);
    for domain in domains {
        told.push(listed(domain)?)?;
    }
    Ok(told)
}

/// The list of these domains, which are in slots 0, 1, .., and its first pass.
pub fn open_list(
    alloc: Global,
    domains: &[FoundDomain],
) -> Result<(TurnCell<ObjectList>, ListPass), NoMemory>
    requires few { length domains.now ≤ most_domains }
    requires names { AreDistinct name_of domains.now }
    requires uuids { AreDistinct (λ d. d.uuid) domains.now }
    ensures cell { IfOk result (λ made. made.1.cell ≡ made.0) }
    ensures pass { IfOk result (λ made. IsFirst meaning (list_of domains.now) 0 made.1) }
{
    let told = all_listed(alloc, domains)?;
    open(alloc, &told)
}

// The request that starts a domain.
fn to_start(alloc: Global, domain: &FoundDomain) -> Result<Request, NoMemory>
    ensures { IfOk result (λ request. request ≡ to_start domain.now) }
{
    let name = Text::copy_of(alloc, domain.definition.name.as_str())?;
    let domain = DomainTarget {
        name,
        uuid: domain.uuid,
        id: -1,
    };
    Ok(Request::OnDomain {
        domain,
        request: DomainRequest::Create,
    })
}

// Puts this request after the others, where the domain is to be started.
fn push_start(
    alloc: Global,
    requests: &mut RequestList,
    domain: &FoundDomain,
) -> Result<(), NoMemory>
    ensures { OnOk result (requests.new ≡ requests.old ++ start_of domain.now) }
{
    if domain.autostart {
        return requests.push(to_start(alloc, domain)?);
    }
    Ok(())
}

/// The requests that start the domains which are to be started.
pub fn starts_of(alloc: Global, domains: &[FoundDomain]) -> Result<RequestList, NoMemory>
    ensures { IfOk result (λ requests. requests ≡ spec.starts_of domains.now) }
{
    let mut requests = ListOf::new(alloc);
    for domain in domains {
        push_start(alloc, &mut requests, domain)?;
    }
    Ok(requests)
}
