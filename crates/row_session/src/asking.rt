// What a call asks.
ghost use Rattle.std.specs.Prelude.{◌≡◌, ◌==◌, ◌&&◌, IfOk};
ghost use Rattle.procedure_spec.specs.Calls.{IsCall, is_program, line_of};
ghost use Rattle.procedure_spec.specs.declared.words.TheConstants.{VERSION as THE_VERSION};
ghost use Rattle.row_session.specs.Reading.{is_unserved as is_unserved_line};
ghost use Rattle.service_spec.specs.Reading.{is_read, read_of};
ghost use Rattle.virt_types.specs.Memory.{UnlessNoMemory};

use packet::{Header, Packet};
use procedure_spec::{OWN, Procedure, REMOTE, VERSION, find};
use remote_args::{ArgFault, read_call};
use service_spec::Service;
use std::alloc::Global;
use virt_types::{OrNoMemory, Request};

// Whether calls of this procedure are read.
fn reads<D: Service>(service: &D, procedure: Procedure) -> bool
    ensures { result ≡ is_read D.is_served procedure }
{
    matches!(procedure, Procedure::ConnectClose) || service.serves(procedure)
}

// Whether the call is of one of the two programs, in the version that both have.
fn is_ours(call: &Header) -> bool
    ensures { result ≡ (is_program call.now.prog && (call.now.vers == THE_VERSION)) }
{
    (call.prog == REMOTE || call.prog == OWN) && call.vers == VERSION
}

// Whether the call is refused for its number, though its program has a procedure of that number.
fn is_unserved<D: Service>(service: &D, call: &Header) -> bool
    ensures { result ≡ is_unserved_line D.is_served (line_of call.now) }
{
    if !is_ours(call) {
        return false;
    }
    match find(call.prog, call.procedure) {
        Some(row) => !reads(service, row.procedure),
        None => false,
    }
}

/// The request that a call asks. The payload of one that the service doesn't serve is not looked at.
pub(crate) fn read<D: Service>(
    alloc: Global,
    service: &D,
    call: &Packet,
) -> Result<Request, OrNoMemory<ArgFault>>
    ensures found { IfOk result (IsCall call.now.header call.now.payload) }
    ensures fault { UnlessNoMemory result (read_of D.is_served call.now.header call.now.payload) }
{
    if is_unserved(service, &call.header) {
        return Err(OrNoMemory::Fault(ArgFault::Procedure));
    }
    read_call(alloc, &call.header, call.payload.as_slice())
}
