// Reading calls.
ghost use Rattle.std.specs.Prelude.{Ok, ◌≡◌, IfOk, IsErrOf, IsOk};
ghost use Rattle.virt_types.specs.Below.types_base.declared.memory.OrNoMemory.TheVariants.{NoMemory};
ghost use Rattle.virt_types.specs.declared.request.Request.{Request as Asked};
ghost use Rattle.procedure_spec.specs.Calls.{IsCall, call_of, in_line as in_line_of, is_known as is_known_row, is_program, line_of};
ghost use Rattle.procedure_spec.specs.Procedures.{row_of};
ghost use Rattle.virt_types.specs.Memory.{UnlessNoMemory};

use crate::arguments::requested;
use procedure_spec::{ArgFault, OWN, REMOTE, Row, VERSION, find, is_announced};
use std::alloc::Global;
use virt_types::{OrNoMemory, Request};
use wire_spec::Header;

fn is_known_program(program: u32) -> bool
    ensures { result ≡ is_program program }
{
    program == REMOTE || program == OWN
}

/// Whether the packet's program has a procedure of its number that is announced: where it is not
/// served, a call is told that it is not built, and else that its number is unknown.
pub fn is_known(header: &Header) -> bool
    ensures { result ≡ is_known_row (row_of header.now.prog header.now.procedure) }
{
    match find(header.prog, header.procedure) {
        Some(row) => is_announced(row.procedure),
        None => false,
    }
}

// The line of the procedure that the packet calls.
#[tactic(auto, unfolding(procedure_spec::specs::Calls::line_of))]
fn line(header: &Header) -> Result<Row, ArgFault>
    ensures { result ≡ line_of header.now }
{
    if !is_known_program(header.prog) {
        return Err(ArgFault::Program);
    }
    if header.vers != VERSION {
        return Err(ArgFault::Version);
    }
    match find(header.prog, header.procedure) {
        Some(row) => Ok(row),
        None => Err(ArgFault::Procedure),
    }
}

// The request that the payload of a call of this line spells.
fn in_line(
    alloc: Global,
    line: Result<Row, ArgFault>,
    payload: &[u8],
) -> Result<Request, OrNoMemory<ArgFault>>
    ensures fault { UnlessNoMemory result (in_line_of line payload.now) }
    ensures memory { IsErrOf result NoMemory → IsOk line }
{
    match line {
        Ok(row) => requested(alloc, &row, payload),
        Err(fault) => Err(OrNoMemory::Fault(fault)),
    }
}

/// The request that a packet of this header and payload calls for. The payload is looked at last.
pub fn read_call(
    alloc: Global,
    header: &Header,
    payload: &[u8],
) -> Result<Request, OrNoMemory<ArgFault>>
    ensures found { IfOk result (IsCall header.now payload.now) }
    ensures only { (asked : Asked) → IsCall header.now payload.now asked → UnlessNoMemory result (Ok asked) }
    ensures fault { UnlessNoMemory result (call_of header.now payload.now) }
    // Memory is asked for only once program, version and procedure are good.
    ensures memory { IsErrOf result NoMemory → IsOk (line_of header.now) }
{
    in_line(alloc, line(header), payload)
}
