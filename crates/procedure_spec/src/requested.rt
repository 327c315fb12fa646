// Which request a procedure with arguments asks.
ghost use Rattle.std.specs.Prelude.{◌≡◌};
ghost use Rattle.procedure_spec.specs.RequestsReading.{network_alone as network_alone_of, network_request as network_request_of, network_with_integer as network_with_integer_of, network_with_word as network_with_word_of, plain_alone as plain_alone_of, plain_request as plain_request_of, plain_with_definition as plain_with_definition_of, plain_with_definition_integer as plain_with_definition_integer_of, plain_with_integer as plain_with_integer_of, plain_with_name as plain_with_name_of, plain_with_optional_name_word as plain_with_optional_name_word_of, plain_with_state as plain_with_state_of, plain_with_uuid as plain_with_uuid_of, pool_alone as pool_alone_of, pool_request as pool_request_of, pool_with_definition as pool_with_definition_of, pool_with_integer as pool_with_integer_of, pool_with_name as pool_with_name_of, request_of};

use crate::arguments::{Arguments, Target};
use crate::domain_requested::domain_request;
use crate::procedure::Procedure;
use virt_types::{Bytes, NetworkRequest, PoolRequest, Request, Text, Uuid};

// Of a network.

fn network_alone(procedure: Procedure) -> Option<NetworkRequest>
    ensures { result ≡ network_alone_of procedure }
{
    match procedure {
        Procedure::NetworkCreate => Some(NetworkRequest::Create),
        Procedure::NetworkDestroy => Some(NetworkRequest::Destroy),
        Procedure::NetworkUndefine => Some(NetworkRequest::Undefine),
        Procedure::Leases => Some(NetworkRequest::Leases),
        _ => None,
    }
}

fn network_with_word(procedure: Procedure, number: u32) -> Option<NetworkRequest>
    ensures { result ≡ network_with_word_of procedure number }
{
    match procedure {
        Procedure::NetworkGetXmlDesc => Some(NetworkRequest::GetXmlDesc { flags: number }),
        _ => None,
    }
}

fn network_with_integer(procedure: Procedure, number: i32) -> Option<NetworkRequest>
    ensures { result ≡ network_with_integer_of procedure number }
{
    match procedure {
        Procedure::NetworkSetAutostart => Some(NetworkRequest::SetAutostart { autostart: number }),
        _ => None,
    }
}

fn network_request(procedure: Procedure, arguments: Arguments) -> Option<NetworkRequest>
    ensures { result ≡ network_request_of procedure arguments }
{
    match arguments {
        Arguments::Nothing => network_alone(procedure),
        Arguments::Word(number) => network_with_word(procedure, number),
        Arguments::Integer(number) => network_with_integer(procedure, number),
        _ => None,
    }
}

// Of a pool or one of its volumes.

fn pool_alone(procedure: Procedure) -> Option<PoolRequest>
    ensures { result ≡ pool_alone_of procedure }
{
    match procedure {
        Procedure::PoolCreate => Some(PoolRequest::Create),
        Procedure::PoolDestroy => Some(PoolRequest::Destroy),
        Procedure::PoolUndefine => Some(PoolRequest::Undefine),
        Procedure::PoolXml => Some(PoolRequest::Xml),
        Procedure::VolList => Some(PoolRequest::VolList),
        _ => None,
    }
}

fn pool_with_integer(procedure: Procedure, number: i32) -> Option<PoolRequest>
    ensures { result ≡ pool_with_integer_of procedure number }
{
    match procedure {
        Procedure::PoolAutostart => Some(PoolRequest::SetAutostart { autostart: number }),
        _ => None,
    }
}

fn pool_with_definition(procedure: Procedure, xml: Text) -> Option<PoolRequest>
    ensures { result ≡ pool_with_definition_of procedure xml }
{
    match procedure {
        Procedure::VolCreate => Some(PoolRequest::VolCreate { xml }),
        _ => None,
    }
}

fn pool_with_name(procedure: Procedure, name: Text) -> Option<PoolRequest>
    ensures { result ≡ pool_with_name_of procedure name }
{
    match procedure {
        Procedure::VolDelete => Some(PoolRequest::VolDelete { volume: name }),
        Procedure::VolXml => Some(PoolRequest::VolXml { volume: name }),
        _ => None,
    }
}

fn pool_request(procedure: Procedure, arguments: Arguments) -> Option<PoolRequest>
    ensures { result ≡ pool_request_of procedure arguments }
{
    match arguments {
        Arguments::Nothing => pool_alone(procedure),
        Arguments::Integer(number) => pool_with_integer(procedure, number),
        Arguments::Definition(xml) => pool_with_definition(procedure, xml),
        Arguments::Name(name) => pool_with_name(procedure, name),
        _ => None,
    }
}

// Of nothing that the first argument names.

fn plain_alone(procedure: Procedure) -> Option<Request>
    ensures { result ≡ plain_alone_of procedure }
{
    match procedure {
        Procedure::ConnectClose => Some(Request::ConnectClose),
        Procedure::ListAll => Some(Request::ListAll),
        Procedure::Titles => Some(Request::Titles),
        Procedure::PoolList => Some(Request::PoolList),
        _ => None,
    }
}

fn plain_with_integer(procedure: Procedure, number: i32) -> Option<Request>
    ensures { result ≡ plain_with_integer_of procedure number }
{
    match procedure {
        Procedure::ConnectListDefinedDomains => Some(Request::ListDefinedDomains { most: number }),
        Procedure::ConnectListDefinedNetworks => Some(Request::ListDefinedNetworks {
            most: number,
        }),
        Procedure::ConnectListNetworks => Some(Request::ListNetworks { most: number }),
        _ => None,
    }
}

fn plain_with_uuid(procedure: Procedure, uuid: Uuid) -> Option<Request>
    ensures { result ≡ plain_with_uuid_of procedure uuid }
{
    match procedure {
        Procedure::DomainLookupByUuid => Some(Request::DomainLookupByUuid { uuid }),
        _ => None,
    }
}

fn plain_with_definition(procedure: Procedure, xml: Text) -> Option<Request>
    ensures { result ≡ plain_with_definition_of procedure xml }
{
    match procedure {
        Procedure::DomainDefineXml => Some(Request::DomainDefineXml { xml }),
        Procedure::NetworkDefineXml => Some(Request::NetworkDefineXml { xml }),
        Procedure::PoolDefine => Some(Request::PoolDefine { xml }),
        _ => None,
    }
}

fn plain_with_name(procedure: Procedure, name: Text) -> Option<Request>
    ensures { result ≡ plain_with_name_of procedure name }
{
    match procedure {
        Procedure::DomainLookupByName => Some(Request::DomainLookupByName { name }),
        Procedure::NetworkLookupByName => Some(Request::NetworkLookupByName { name }),
        Procedure::DomainRestore => Some(Request::DomainRestore { from: name }),
        Procedure::PoolLookup => Some(Request::PoolLookup { name }),
        _ => None,
    }
}

fn plain_with_optional_name_word(
    procedure: Procedure,
    name: Option<Text>,
    number: u32,
) -> Option<Request>
    ensures { result ≡ plain_with_optional_name_word_of procedure name number }
{
    match procedure {
        Procedure::ConnectOpen => Some(Request::ConnectOpen {
            name,
            flags: number,
        }),
        _ => None,
    }
}

fn plain_with_definition_integer(procedure: Procedure, xml: Text, number: i32) -> Option<Request>
    ensures { result ≡ plain_with_definition_integer_of procedure xml number }
{
    match procedure {
        Procedure::DomainCreateXml => Some(Request::DomainCreateXml { xml, flags: number }),
        _ => None,
    }
}

fn plain_with_state(procedure: Procedure, xml: Text, number: i32, state: Bytes) -> Option<Request>
    ensures { result ≡ plain_with_state_of procedure xml number state }
{
    match procedure {
        Procedure::MigratePrepare => Some(Request::MigratePrepare {
            xml,
            running: number,
            state,
        }),
        _ => None,
    }
}

fn plain_request(procedure: Procedure, arguments: Arguments) -> Option<Request>
    ensures { result ≡ plain_request_of procedure arguments }
{
    match arguments {
        Arguments::Nothing => plain_alone(procedure),
        Arguments::Integer(number) => plain_with_integer(procedure, number),
        Arguments::Uuid(uuid) => plain_with_uuid(procedure, uuid),
        Arguments::Definition(xml) => plain_with_definition(procedure, xml),
        Arguments::Name(name) => plain_with_name(procedure, name),
        Arguments::OptionalNameWord(name, number) => plain_with_optional_name_word(
            procedure, name, number,
        ),
        Arguments::DefinitionInteger(xml, number) => plain_with_definition_integer(
            procedure, xml, number,
        ),
        Arguments::DefinitionIntegerState(xml, number, state) => plain_with_state(
            procedure, xml, number, state,
        ),
        _ => None,
    }
}

/// The request that a procedure asks for this target with these arguments, where it takes such.
pub fn request(procedure: Procedure, target: Target, arguments: Arguments) -> Option<Request>
    ensures { result ≡ request_of procedure target arguments }
{
    match target {
        Target::Nothing => plain_request(procedure, arguments),
        Target::Domain(domain) => match domain_request(procedure, arguments) {
            Some(request) => Some(Request::OnDomain { domain, request }),
            None => None,
        },
        Target::Network(network) => match network_request(procedure, arguments) {
            Some(request) => Some(Request::OnNetwork { network, request }),
            None => None,
        },
        Target::Pool(pool) => match pool_request(procedure, arguments) {
            Some(request) => Some(Request::OnPool { pool, request }),
            None => None,
        },
    }
}
