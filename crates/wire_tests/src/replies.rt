// Calls and their replies.
ghost use Rattle.procedure_spec.specs.Calls.{IsCall};

use crate::lines::Line;
use procedure_spec::ArgFault;
use remote_args::{read_call, read_reply, write_call, write_reply};
use std::alloc::{AllocError, Global};
use virt_types::{Bytes, OrNoMemory, Request};
use wire_spec::{Header, XdrFault};

// A reply that was read by whoever asked the request, written again.
fn rewritten(
    alloc: Global,
    header: &Header,
    call: &[u8],
    request: &Request,
    payload: &[u8],
) -> Option<Bytes>
    requires { IsCall header.now call.now request.now }
{
    match read_reply(alloc, request, payload) {
        Ok(value) => write_reply(alloc, header, &value).ok(),
        Err(_) => None,
    }
}

// Why a payload is not that of the reply to a request.
fn fault(alloc: Global, request: &Request, payload: &[u8]) -> Option<ArgFault> {
    match read_reply(alloc, request, payload) {
        Err(OrNoMemory::Fault(fault)) => Some(fault),
        _ => None,
    }
}

// After how many of its bytes a reply is cut so that an item passes the end.
fn count_short(alloc: Global, request: &Request, payload: &[u8]) -> u64 {
    let mut count: u64 = 0;
    for cut in 0..payload.len() {
        if let Some(ArgFault::Xdr(XdrFault::Short { .. })) = fault(
            alloc,
            request,
            &payload[..cut],
        ) {
            count = count.saturating_add(1);
        }
    }
    count
}

// What is wrong with a reply where one byte more is there.
fn fault_of_longer(
    alloc: Global,
    request: &Request,
    payload: &[u8],
) -> Result<Option<ArgFault>, AllocError> {
    let mut longer = payload.to_vec(alloc)?;
    longer.push(0)?;
    Ok(fault(alloc, request, longer.as_slice()))
}

fn put_written(line: &mut Line, packet: Option<Bytes>) {
    match packet {
        Some(packet) => line.put_bytes(packet.as_slice()),
        None => line.put("none"),
    }
}

// How a reply that is read is whole.
fn put_whole(line: &mut Line, alloc: Global, request: &Request, payload: &[u8]) {
    line.put(" | ");
    line.put_number(count_short(alloc, request, payload));
    line.put(" short, ");
    match fault_of_longer(alloc, request, payload) {
        Ok(Some(fault)) => line.put_fault(fault),
        Ok(None) => line.put("read"),
        Err(_) => line.lose(),
    }
}

// The call and the reply, written again.
fn put_both(
    line: &mut Line,
    alloc: Global,
    header: &Header,
    call: &[u8],
    request: &Request,
    payload: &[u8],
)
    requires { IsCall header.now call.now request.now }
{
    match fault(alloc, request, payload) {
        Some(fault) => line.put_fault(fault),
        None => {
            put_written(line, write_call(alloc, request, 7).ok());
            line.put(" | ");
            put_written(line, rewritten(alloc, header, call, request, payload));
            put_whole(line, alloc, request, payload);
        }
    }
}

/// The packets that are written of a call and of its reply, once they were read: after how many of its bytes the reply is cut so
/// that an item passes the end, and what is wrong with one byte more. Where the reply is none, why.
pub(crate) fn put_exchange(
    line: &mut Line,
    alloc: Global,
    header: &Header,
    call: &[u8],
    payload: &[u8],
) {
    match read_call(alloc, header, call) {
        Ok(request) => put_both(line, alloc, header, call, &request, payload),
        Err(_) => line.put("no call"),
    }
}
