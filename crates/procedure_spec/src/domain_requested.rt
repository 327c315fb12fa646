// Which request for a domain a procedure with arguments asks.
ghost use Rattle.std.specs.Prelude.{◌≡◌};
ghost use Rattle.procedure_spec.specs.DomainRequests.{domain_alone as domain_alone_of, domain_request as domain_request_of, domain_with_definition as domain_with_definition_of, domain_with_double_word as domain_with_double_word_of, domain_with_integer as domain_with_integer_of, domain_with_name as domain_with_name_of, domain_with_name_integer as domain_with_name_integer_of, domain_with_name_word as domain_with_name_word_of, domain_with_word as domain_with_word_of};

use crate::arguments::Arguments;
use crate::procedure::Procedure;
use virt_types::{DomainRequest, Text};

fn domain_alone(procedure: Procedure) -> Option<DomainRequest>
    ensures { result ≡ domain_alone_of procedure }
{
    match procedure {
        Procedure::DomainCreate => Some(DomainRequest::Create),
        Procedure::DomainDestroy => Some(DomainRequest::Destroy),
        Procedure::DomainGetAutostart => Some(DomainRequest::GetAutostart),
        Procedure::DomainGetInfo => Some(DomainRequest::GetInfo),
        Procedure::DomainResume => Some(DomainRequest::Resume),
        Procedure::DomainShutdown => Some(DomainRequest::Shutdown),
        Procedure::DomainSuspend => Some(DomainRequest::Suspend),
        Procedure::DomainUndefine => Some(DomainRequest::Undefine),
        Procedure::JobInfo => Some(DomainRequest::JobInfo),
        Procedure::JobAbort => Some(DomainRequest::JobAbort),
        Procedure::SnapList => Some(DomainRequest::SnapList),
        Procedure::EventRegister => Some(DomainRequest::EventRegister),
        Procedure::EventDeregister => Some(DomainRequest::EventDeregister),
        Procedure::MemoryStats => Some(DomainRequest::MemoryStats),
        Procedure::MigratePerform => Some(DomainRequest::MigratePerform),
        _ => None,
    }
}

fn domain_with_word(procedure: Procedure, number: u32) -> Option<DomainRequest>
    ensures { result ≡ domain_with_word_of procedure number }
{
    match procedure {
        Procedure::DomainGetXmlDesc => Some(DomainRequest::GetXmlDesc { flags: number }),
        Procedure::DomainReboot => Some(DomainRequest::Reboot { flags: number }),
        Procedure::DomainSetVcpus => Some(DomainRequest::SetVcpus { vcpus: number }),
        _ => None,
    }
}

fn domain_with_integer(procedure: Procedure, number: i32) -> Option<DomainRequest>
    ensures { result ≡ domain_with_integer_of procedure number }
{
    match procedure {
        Procedure::DomainSetAutostart => Some(DomainRequest::SetAutostart { autostart: number }),
        Procedure::Kick => Some(DomainRequest::Kick { action: number }),
        Procedure::MigrateConfirm => Some(DomainRequest::MigrateConfirm { verdict: number }),
        Procedure::MigrateFinish => Some(DomainRequest::MigrateFinish { go: number }),
        _ => None,
    }
}

fn domain_with_double_word(procedure: Procedure, number: u64) -> Option<DomainRequest>
    ensures { result ≡ domain_with_double_word_of procedure number }
{
    match procedure {
        Procedure::DomainSetMemory => Some(DomainRequest::SetMemory { memory: number }),
        Procedure::MigrateLimit => Some(DomainRequest::MigrateLimit { rest: number }),
        _ => None,
    }
}

fn domain_with_definition(procedure: Procedure, xml: Text) -> Option<DomainRequest>
    ensures { result ≡ domain_with_definition_of procedure xml }
{
    match procedure {
        Procedure::DomainAttachDevice => Some(DomainRequest::AttachDevice { xml }),
        Procedure::DomainDetachDevice => Some(DomainRequest::DetachDevice { xml }),
        Procedure::SnapCreate => Some(DomainRequest::SnapCreate { xml }),
        _ => None,
    }
}

fn domain_with_name(procedure: Procedure, name: Text) -> Option<DomainRequest>
    ensures { result ≡ domain_with_name_of procedure name }
{
    match procedure {
        Procedure::DomainSave => Some(DomainRequest::Save { to: name }),
        Procedure::SnapParent => Some(DomainRequest::SnapParent { snapshot: name }),
        Procedure::SnapRevert => Some(DomainRequest::SnapRevert { snapshot: name }),
        Procedure::SnapXml => Some(DomainRequest::SnapXml { snapshot: name }),
        _ => None,
    }
}

fn domain_with_name_word(procedure: Procedure, name: Text, number: u32) -> Option<DomainRequest>
    ensures { result ≡ domain_with_name_word_of procedure name number }
{
    match procedure {
        Procedure::DomainCoreDump => Some(DomainRequest::CoreDump {
            to: name,
            flags: number,
        }),
        _ => None,
    }
}

fn domain_with_name_integer(procedure: Procedure, name: Text, number: i32) -> Option<DomainRequest>
    ensures { result ≡ domain_with_name_integer_of procedure name number }
{
    match procedure {
        Procedure::SnapDelete => Some(DomainRequest::SnapDelete {
            snapshot: name,
            children: number,
        }),
        _ => None,
    }
}

pub(crate) fn domain_request(procedure: Procedure, arguments: Arguments) -> Option<DomainRequest>
    ensures { result ≡ domain_request_of procedure arguments }
{
    match arguments {
        Arguments::Nothing => domain_alone(procedure),
        Arguments::Word(number) => domain_with_word(procedure, number),
        Arguments::Integer(number) => domain_with_integer(procedure, number),
        Arguments::DoubleWord(number) => domain_with_double_word(procedure, number),
        Arguments::Definition(xml) => domain_with_definition(procedure, xml),
        Arguments::Name(name) => domain_with_name(procedure, name),
        Arguments::NameWord(name, number) => domain_with_name_word(procedure, name, number),
        Arguments::NameInteger(name, number) => domain_with_name_integer(procedure, name, number),
        _ => None,
    }
}
