// Items of replies and errors, with their faults as faults of a payload.
ghost use Rattle.std.specs.Prelude.{IfOk};
ghost use Rattle.virt_types.specs.Limits.{most_state_bytes};
ghost use Rattle.wire_spec.specs.Xdr.{opaque};
ghost use Rattle.wire_spec.specs.XdrAnswer.{Takes};
ghost use Rattle.wire_spec.specs.XdrReading.{first_double_word, first_fixed, first_integer, first_opaque, first_optional, first_string, first_truth, first_word};
ghost use Rattle.procedure_spec.specs.Reading.{item};
ghost use Rattle.remote_args.specs.Steps.{Ends, Lifts, Walks};
ghost use Rattle.procedure_spec.specs.declared.words.TheConstants.{PACKET_BOUND};

use crate::arguments::{identifier, optional_name};
use procedure_spec::{ArgFault, PACKET_BOUND};
use std::alloc::Global;
use virt_types::{Bytes, MOST_STATE_BYTES, OrNoMemory, Text, Uuid};
use wire_spec::XdrFault;
use xdr_codec::Reader;

/// A fault of an item as a fault of a payload.
pub(crate) fn lifted<T: Drop>(
    read: Result<T, OrNoMemory<XdrFault>>,
) -> Result<T, OrNoMemory<ArgFault>>
    ensures { Lifts read result }
{
    match read {
        Ok(value) => Ok(value),
        Err(OrNoMemory::Fault(fault)) => Err(OrNoMemory::Fault(ArgFault::Xdr(fault))),
        Err(OrNoMemory::NoMemory) => Err(OrNoMemory::NoMemory),
    }
}

pub(crate) fn word(reader: &mut Reader<'_>) -> Result<u32, OrNoMemory<ArgFault>>
    ensures { Walks (item first_word) reader.old result reader.new }
{
    Ok(reader.take_u32().map_err(ArgFault::Xdr)?)
}

pub(crate) fn integer(reader: &mut Reader<'_>) -> Result<i32, OrNoMemory<ArgFault>>
    ensures { Walks (item first_integer) reader.old result reader.new }
{
    Ok(reader.take_i32().map_err(ArgFault::Xdr)?)
}

pub(crate) fn truth(reader: &mut Reader<'_>) -> Result<bool, OrNoMemory<ArgFault>>
    ensures { Walks (item first_truth) reader.old result reader.new }
{
    Ok(reader.take_optional().map_err(ArgFault::Xdr)?)
}

pub(crate) fn double_word(reader: &mut Reader<'_>) -> Result<u64, OrNoMemory<ArgFault>>
    ensures { Walks (item first_double_word) reader.old result reader.new }
{
    Ok(reader.take_u64().map_err(ArgFault::Xdr)?)
}

pub(crate) fn state_bytes(
    alloc: Global,
    reader: &mut Reader<'_>,
) -> Result<Bytes, OrNoMemory<ArgFault>>
    ensures { Walks (item (first_opaque most_state_bytes)) reader.old result reader.new }
{
    lifted(reader.take_opaque_within(alloc, MOST_STATE_BYTES as u32))
}

pub(crate) fn uuid(alloc: Global, reader: &mut Reader<'_>) -> Result<Uuid, OrNoMemory<ArgFault>>
    ensures { Walks (item (first_fixed 16)) reader.old result reader.new }
{
    lifted(identifier(alloc, reader))
}

pub(crate) fn text(alloc: Global, reader: &mut Reader<'_>) -> Result<Text, OrNoMemory<ArgFault>>
    ensures read { Walks (item (first_string PACKET_BOUND)) reader.old result reader.new }
    ensures taken { IfOk result (λ text. Takes reader.old (opaque text) reader.new) }
{
    lifted(reader.take_text(alloc, PACKET_BOUND))
}

pub(crate) fn optional_text(
    alloc: Global,
    reader: &mut Reader<'_>,
) -> Result<Option<Text>, OrNoMemory<ArgFault>>
    ensures { Walks (item (first_optional (first_string PACKET_BOUND))) reader.old result reader.new }
{
    lifted(optional_name(alloc, reader))
}

/// That nothing is left.
pub(crate) fn end(reader: &Reader<'_>) -> Result<(), OrNoMemory<ArgFault>>
    ensures { Ends reader.now result }
{
    match reader.end() {
        Ok(()) => Ok(()),
        Err(fault) => Err(OrNoMemory::Fault(ArgFault::Xdr(fault))),
    }
}
