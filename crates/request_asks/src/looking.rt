// Requests for a domain that is there.
ghost use Rattle.std.specs.Prelude.{◌≡◌, [], true};
ghost use Rattle.outcome_spec.specs.Shown.{is_built_of_domain};
ghost use Rattle.virt_types.specs.Drawn.{IsMadeOfDrawn};
ghost use Rattle.virt_types.specs.declared.request.Request.TheVariants as requests;
ghost use Rattle.request_asks.specs.Said.{IsSaid};

use crate::asked::Asked;
use outcome_spec::{Task, parse, task_of};
use slot_holds::Hold;
use std::alloc::Global;
use virt_types::{Bytes, DomainRequest, DomainTarget, NoMemory, Query, Random, Text, Uuid};

/// DOMAIN_LOOKUP_BY_NAME. What is looked for need not be a name.
pub(crate) fn look_up_name(alloc: Global, name: &Text) -> Asked
    ensures { IsSaid [] (requests.DomainLookupByName name.now) result }
{
    match Bytes::copy_of(alloc, name.as_bytes()) {
        Ok(name) => Asked::Task {
            hold: Hold::Name(name),
            task: Task::Read(Query::Reference),
        },
        Err(NoMemory) => Asked::NoMemory,
    }
}

/// DOMAIN_LOOKUP_BY_UUID.
pub(crate) fn look_up_uuid(uuid: Uuid) -> Asked
    ensures { IsSaid [] (requests.DomainLookupByUuid uuid) result }
{
    Asked::Task {
        hold: Hold::Uuid(uuid),
        task: Task::Read(Query::Reference),
    }
}

/// Whether a procedure for one domain is built.
pub(crate) fn is_built(request: &DomainRequest) -> bool
    ensures { result ≡ is_built_of_domain request.now }
{
    match request {
        DomainRequest::EventRegister => false,
        DomainRequest::EventDeregister => false,
        _ => true,
    }
}

/// A procedure for one domain.
pub(crate) fn ask_domain<R: Random>(
    alloc: Global,
    domain: &DomainTarget,
    request: &DomainRequest,
    random: &mut R,
) -> Asked
    requires { is_built_of_domain request.now ≡ true }
    ensures { IsMadeOfDrawn (λ words. IsSaid words (requests.OnDomain domain.now request.now) result) (R.drawn random.old) (R.drawn random.new) }
{
    match parse(alloc, request) {
        Ok(parsed) => Asked::Task {
            hold: Hold::Uuid(domain.uuid),
            task: task_of(parsed, random),
        },
        Err(why) => Asked::refused(why),
    }
}
