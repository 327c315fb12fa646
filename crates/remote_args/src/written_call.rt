// Writing calls: whole packets.
ghost use Rattle.std.specs.Prelude.{◌≡◌, ◌+◌, ◌++◌, ◌<◌, ◌^◌, length, IfOk, IfErr, IfSome, OnOk};
ghost use Rattle.wire_spec.specs.Packets.{IsPacket, spelling};
ghost use Rattle.wire_spec.specs.Xdr.{integer, opaque, optional, word};
ghost use Rattle.wire_spec.specs.declared.message.TheConstants.{HEADER_LENGTH};
ghost use Rattle.packet.specs.Writing.{IsTooBig, packet_with};
ghost use Rattle.procedure_spec.specs.Arguments.{HasArguments, IsArguments, IsTarget, argument_items, arguments, object, target_items};
ghost use Rattle.procedure_spec.specs.Calls.{AsksBy, call_header as header_of, call_packet};
ghost use Rattle.procedure_spec.specs.Lines.{line};
ghost use Rattle.procedure_spec.specs.Requests.{arguments_of, asks_of_domain, asks_of_network, asks_of_pool, procedure_of, target_of};

use packet::{WriteFault, begin_packet, finish_packet};
use procedure_spec::{VERSION, call_numbers};
use std::alloc::Global;
use virt_types::{
    Bytes, DomainRequest, DomainTarget, NetworkRequest, NoMemory, OrNoMemory, PoolRequest, Request,
    Text, Uuid,
};
use wire_spec::{CALL, Header, OK};
use xdr_codec::Writer;

// The items that several procedures have.

fn put_text(writer: &mut Writer, text: &Text) -> Result<(), NoMemory>
    requires { length text.now < 2 ^ 32 }
    ensures { OnOk result (writer.new ≡ writer.old ++ opaque text.now) }
{
    writer.put_string(text.as_str().as_bytes())
}

fn put_text_word(writer: &mut Writer, text: &Text, number: u32) -> Result<(), NoMemory>
    requires { length text.now < 2 ^ 32 }
    ensures { OnOk result (writer.new ≡ writer.old ++ (opaque text.now ++ word number)) }
{
    put_text(writer, text)?;
    writer.put_u32(number)
}

fn put_text_integer(writer: &mut Writer, text: &Text, number: i32) -> Result<(), NoMemory>
    requires { length text.now < 2 ^ 32 }
    ensures { OnOk result (writer.new ≡ writer.old ++ (opaque text.now ++ integer number)) }
{
    put_text(writer, text)?;
    writer.put_i32(number)
}

fn put_optional_text(writer: &mut Writer, text: &Option<Text>) -> Result<(), NoMemory>
    requires { IfSome text.now (λ t. length t < 2 ^ 32) }
    ensures { OnOk result (writer.new ≡ writer.old ++ optional opaque text.now) }
{
    match text {
        Some(text) => {
            writer.put_optional(true)?;
            put_text(writer, text)
        }
        None => writer.put_optional(false),
    }
}

fn put_optional_text_word(
    writer: &mut Writer,
    text: &Option<Text>,
    number: u32,
) -> Result<(), NoMemory>
    requires { IfSome text.now (λ t. length t < 2 ^ 32) }
    ensures { OnOk result (writer.new ≡ writer.old ++ (optional opaque text.now ++ word number)) }
{
    put_optional_text(writer, text)?;
    writer.put_u32(number)
}

fn put_incoming(
    writer: &mut Writer,
    text: &Text,
    running: i32,
    state: &Bytes,
) -> Result<(), NoMemory>
    requires text { length text.now < 2 ^ 32 }
    requires state { length state.now < 2 ^ 32 }
    ensures { OnOk result (writer.new ≡ writer.old ++ (opaque text.now ++ integer running ++ opaque state.now)) }
{
    put_text_integer(writer, text, running)?;
    writer.put_opaque(state.as_slice())
}

fn put_object(writer: &mut Writer, name: &Text, uuid: &Uuid) -> Result<(), NoMemory>
    requires { length name.now < 2 ^ 32 }
    ensures { OnOk result (writer.new ≡ writer.old ++ object name.now uuid.now) }
{
    put_text(writer, name)?;
    writer.put_fixed(uuid.as_bytes())
}

fn put_domain(writer: &mut Writer, domain: &DomainTarget) -> Result<(), NoMemory>
    requires { length domain.now.name < 2 ^ 32 }
    ensures { OnOk result (writer.new ≡ writer.old ++ (object domain.now.name domain.now.uuid ++ integer domain.now.id)) }
{
    put_object(writer, &domain.name, &domain.uuid)?;
    writer.put_i32(domain.id)
}

// What the call is for.
fn put_target(writer: &mut Writer, request: &Request) -> Result<(), NoMemory>
    requires { IsTarget (target_of request.now) }
    ensures { OnOk result (writer.new ≡ writer.old ++ target_items (target_of request.now)) }
{
    match request {
        Request::OnDomain { domain, .. } => put_domain(writer, domain),
        Request::OnNetwork { network, .. } => put_object(writer, &network.name, &network.uuid),
        Request::OnPool { pool, .. } => put_object(writer, &pool.name, &pool.uuid),
        _ => Ok(()),
    }
}

// Its other arguments.

fn put_domain_arguments(writer: &mut Writer, request: &DomainRequest) -> Result<(), NoMemory>
    requires { IsArguments (asks_of_domain request.now).1 }
    ensures { OnOk result (writer.new ≡ writer.old ++ argument_items (asks_of_domain request.now).1) }
{
    match request {
        DomainRequest::AttachDevice { xml } => put_text(writer, xml),
        DomainRequest::DetachDevice { xml } => put_text(writer, xml),
        DomainRequest::GetXmlDesc { flags } => writer.put_u32(*flags),
        DomainRequest::Reboot { flags } => writer.put_u32(*flags),
        DomainRequest::SetAutostart { autostart } => writer.put_i32(*autostart),
        DomainRequest::SetMemory { memory } => writer.put_u64(*memory),
        DomainRequest::SetVcpus { vcpus } => writer.put_u32(*vcpus),
        DomainRequest::CoreDump { to, flags } => put_text_word(writer, to, *flags),
        DomainRequest::Save { to } => put_text(writer, to),
        DomainRequest::SnapCreate { xml } => put_text(writer, xml),
        DomainRequest::SnapParent { snapshot } => put_text(writer, snapshot),
        DomainRequest::SnapDelete { snapshot, children } => put_text_integer(
            writer, snapshot, *children,
        ),
        DomainRequest::SnapRevert { snapshot } => put_text(writer, snapshot),
        DomainRequest::SnapXml { snapshot } => put_text(writer, snapshot),
        DomainRequest::Kick { action } => writer.put_i32(*action),
        DomainRequest::MigrateConfirm { verdict } => writer.put_i32(*verdict),
        DomainRequest::MigrateFinish { go } => writer.put_i32(*go),
        DomainRequest::MigrateLimit { rest } => writer.put_u64(*rest),
        DomainRequest::Create
        | DomainRequest::Destroy
        | DomainRequest::GetAutostart
        | DomainRequest::GetInfo
        | DomainRequest::Resume
        | DomainRequest::Shutdown
        | DomainRequest::Suspend
        | DomainRequest::Undefine
        | DomainRequest::JobInfo
        | DomainRequest::JobAbort
        | DomainRequest::SnapList
        | DomainRequest::EventRegister
        | DomainRequest::EventDeregister
        | DomainRequest::MemoryStats
        | DomainRequest::MigratePerform => Ok(()),
    }
}

fn put_network_arguments(writer: &mut Writer, request: &NetworkRequest) -> Result<(), NoMemory>
    requires { IsArguments (asks_of_network request.now).1 }
    ensures { OnOk result (writer.new ≡ writer.old ++ argument_items (asks_of_network request.now).1) }
{
    match request {
        NetworkRequest::GetXmlDesc { flags } => writer.put_u32(*flags),
        NetworkRequest::SetAutostart { autostart } => writer.put_i32(*autostart),
        NetworkRequest::Create
        | NetworkRequest::Destroy
        | NetworkRequest::Undefine
        | NetworkRequest::Leases => Ok(()),
    }
}

fn put_pool_arguments(writer: &mut Writer, request: &PoolRequest) -> Result<(), NoMemory>
    requires { IsArguments (asks_of_pool request.now).1 }
    ensures { OnOk result (writer.new ≡ writer.old ++ argument_items (asks_of_pool request.now).1) }
{
    match request {
        PoolRequest::SetAutostart { autostart } => writer.put_i32(*autostart),
        PoolRequest::VolCreate { xml } => put_text(writer, xml),
        PoolRequest::VolDelete { volume } => put_text(writer, volume),
        PoolRequest::VolXml { volume } => put_text(writer, volume),
        PoolRequest::Create
        | PoolRequest::Destroy
        | PoolRequest::Undefine
        | PoolRequest::Xml
        | PoolRequest::VolList => Ok(()),
    }
}

fn put_arguments(writer: &mut Writer, request: &Request) -> Result<(), NoMemory>
    requires { IsArguments (arguments_of request.now) }
    ensures { OnOk result (writer.new ≡ writer.old ++ argument_items (arguments_of request.now)) }
{
    match request {
        Request::ConnectOpen { name, flags } => put_optional_text_word(writer, name, *flags),
        Request::DomainCreateXml { xml, flags } => put_text_integer(writer, xml, *flags),
        Request::DomainDefineXml { xml } => put_text(writer, xml),
        Request::ListDefinedDomains { most } => writer.put_i32(*most),
        Request::DomainLookupByName { name } => put_text(writer, name),
        Request::DomainLookupByUuid { uuid } => writer.put_fixed(uuid.as_bytes()),
        Request::ListDefinedNetworks { most } => writer.put_i32(*most),
        Request::ListNetworks { most } => writer.put_i32(*most),
        Request::NetworkDefineXml { xml } => put_text(writer, xml),
        Request::NetworkLookupByName { name } => put_text(writer, name),
        Request::DomainRestore { from } => put_text(writer, from),
        Request::PoolDefine { xml } => put_text(writer, xml),
        Request::PoolLookup { name } => put_text(writer, name),
        Request::MigratePrepare {
            xml,
            running,
            state,
        } => put_incoming(writer, xml, *running, state),
        Request::ConnectClose | Request::ListAll | Request::Titles | Request::PoolList => Ok(()),
        Request::OnDomain { request, .. } => put_domain_arguments(writer, request),
        Request::OnNetwork { request, .. } => put_network_arguments(writer, request),
        Request::OnPool { request, .. } => put_pool_arguments(writer, request),
    }
}

fn call_header(request: &Request, serial: u32) -> Header
    ensures { result ≡ header_of (line (procedure_of request.now)) serial }
{
    let (prog, procedure) = call_numbers(request);
    Header {
        prog,
        vers: VERSION,
        procedure,
        kind: CALL,
        serial,
        status: OK,
    }
}

// The payload of the call.
fn put_request(writer: &mut Writer, request: &Request) -> Result<(), NoMemory>
    requires { HasArguments request.now }
    ensures { OnOk result (writer.new ≡ writer.old ++ arguments request.now) }
{
    put_target(writer, request)?;
    put_arguments(writer, request)
}

// The call that asks the request.
fn written(alloc: Global, request: &Request, serial: u32) -> Result<Bytes, OrNoMemory<WriteFault>>
    requires { HasArguments request.now }
    ensures bytes { IfOk result (λ bytes. bytes ≡ spelling (call_packet request.now serial)) }
    ensures packet { OnOk result (IsPacket (call_packet request.now serial)) }
    ensures err { IfErr result (IsTooBig (HEADER_LENGTH + length (arguments request.now))) }
{
    let mut writer = begin_packet(alloc, &call_header(request, serial))?;
    put_request(&mut writer, request)?;
    finish_packet(writer)
}

/// The header of the call that asks this request, with this serial.
pub fn call_words(request: &Request, serial: u32) -> Header
    requires { HasArguments request.now }
    ensures { result ≡ (call_packet request.now serial).header }
{
    call_header(request, serial)
}

/// The call that asks this request, with this serial.
pub fn write_call(
    alloc: Global,
    request: &Request,
    serial: u32,
) -> Result<Bytes, OrNoMemory<WriteFault>>
    requires { HasArguments request.now }
    ensures call { AsksBy (call_packet request.now serial) request.now }
    ensures bytes { IfOk result (λ bytes. bytes ≡ spelling (call_packet request.now serial)) }
    ensures packet { OnOk result (IsPacket (call_packet request.now serial)) }
    ensures err { IfErr result (IsTooBig (HEADER_LENGTH + length (arguments request.now))) }
{
    written(alloc, request, serial)
}
