// Reading what calls hold, by the shapes of the procedure's line.
ghost use Rattle.std.specs.Prelude.{◌≡◌, IfOk, IfSome};
ghost use Rattle.wire_spec.specs.XdrReading.{first_fixed, first_optional, first_string, whole};
ghost use Rattle.procedure_spec.specs.Arguments.{IsString};
ghost use Rattle.procedure_spec.specs.ArgumentsReading.{first_arguments, first_call, first_domain, first_target, request_in};
ghost use Rattle.virt_types.specs.Limits.{most_text_bytes};
ghost use Rattle.virt_types.specs.Memory.{UnlessNoMemory};
ghost use Rattle.remote_args.specs.Steps.{Walks};
ghost use Rattle.procedure_spec.specs.declared.words.TheConstants.{PACKET_BOUND};

use crate::item::lifted;
use procedure_spec::{
    ArgFault, ArgumentShape, Arguments, PACKET_BOUND, Row, Target, TargetShape, request,
};
use std::alloc::Global;
use virt_types::{
    DomainTarget, MOST_STATE_BYTES, MOST_TEXT_BYTES, NetworkTarget, OrNoMemory, PoolTarget,
    Request, Text, Uuid,
};
use wire_spec::XdrFault;
use xdr_codec::Reader;

// The items that several procedures have.

#[tactic(auto, unfolding(wire_spec::specs::XdrReading::first_optional))]
pub(crate) fn optional_name(
    alloc: Global,
    reader: &mut Reader<'_>,
) -> Result<Option<Text>, OrNoMemory<XdrFault>>
    ensures read { Walks (first_optional (first_string PACKET_BOUND)) reader.old result reader.new }
    ensures name { IfOk result (λ name. IfSome name (IsString PACKET_BOUND)) }
{
    if reader.take_optional()? {
        Ok(Some(reader.take_text(alloc, PACKET_BOUND)?))
    } else {
        Ok(None)
    }
}

pub(crate) fn identifier(
    alloc: Global,
    reader: &mut Reader<'_>,
) -> Result<Uuid, OrNoMemory<XdrFault>>
    ensures { Walks (first_fixed 16) reader.old result reader.new }
{
    let bytes = reader.take_fixed(alloc, 16)?;
    match Uuid::from_slice(bytes.as_slice()) {
        Ok(uuid) => Ok(uuid),
        Err(_) => unreachable!(),
    }
}

#[tactic(auto, unfolding(procedure_spec::specs::ArgumentsReading::first_domain))]
fn domain(alloc: Global, reader: &mut Reader<'_>) -> Result<DomainTarget, OrNoMemory<XdrFault>>
    ensures { Walks first_domain reader.old result reader.new }
{
    let name = reader.take_text(alloc, PACKET_BOUND)?;
    let uuid = identifier(alloc, reader)?;
    let id = reader.take_i32()?;
    Ok(DomainTarget { name, uuid, id })
}

// What the call is for.
fn target(
    alloc: Global,
    shape: TargetShape,
    reader: &mut Reader<'_>,
) -> Result<Target, OrNoMemory<XdrFault>>
    ensures { Walks (first_target shape) reader.old result reader.new }
{
    match shape {
        TargetShape::Nothing => Ok(Target::Nothing),
        TargetShape::Domain => Ok(Target::Domain(domain(alloc, reader)?)),
        TargetShape::Network => {
            let name = reader.take_text(alloc, PACKET_BOUND)?;
            let uuid = identifier(alloc, reader)?;
            Ok(Target::Network(NetworkTarget { name, uuid }))
        }
        TargetShape::Pool => {
            let name = reader.take_text(alloc, PACKET_BOUND)?;
            let uuid = identifier(alloc, reader)?;
            Ok(Target::Pool(PoolTarget { name, uuid }))
        }
    }
}

fn definition(alloc: Global, reader: &mut Reader<'_>) -> Result<Text, OrNoMemory<XdrFault>>
    ensures { Walks (first_string most_text_bytes) reader.old result reader.new }
{
    Ok(reader.take_text(alloc, MOST_TEXT_BYTES as u32)?)
}

// What the call holds beside that.
fn arguments(
    alloc: Global,
    shape: ArgumentShape,
    reader: &mut Reader<'_>,
) -> Result<Arguments, OrNoMemory<XdrFault>>
    ensures { Walks (first_arguments shape) reader.old result reader.new }
{
    match shape {
        ArgumentShape::Nothing => Ok(Arguments::Nothing),
        ArgumentShape::Word => Ok(Arguments::Word(reader.take_u32()?)),
        ArgumentShape::Integer => Ok(Arguments::Integer(reader.take_i32()?)),
        ArgumentShape::DoubleWord => Ok(Arguments::DoubleWord(reader.take_u64()?)),
        ArgumentShape::Uuid => Ok(Arguments::Uuid(identifier(alloc, reader)?)),
        ArgumentShape::Definition => Ok(Arguments::Definition(definition(alloc, reader)?)),
        ArgumentShape::Name => Ok(Arguments::Name(reader.take_text(alloc, PACKET_BOUND)?)),
        ArgumentShape::NameWord => {
            let name = reader.take_text(alloc, PACKET_BOUND)?;
            let number = reader.take_u32()?;
            Ok(Arguments::NameWord(name, number))
        }
        ArgumentShape::NameInteger => {
            let name = reader.take_text(alloc, PACKET_BOUND)?;
            let number = reader.take_i32()?;
            Ok(Arguments::NameInteger(name, number))
        }
        ArgumentShape::OptionalNameWord => {
            let name = optional_name(alloc, reader)?;
            let number = reader.take_u32()?;
            Ok(Arguments::OptionalNameWord(name, number))
        }
        ArgumentShape::DefinitionInteger => {
            let xml = definition(alloc, reader)?;
            let number = reader.take_i32()?;
            Ok(Arguments::DefinitionInteger(xml, number))
        }
        ArgumentShape::DefinitionIntegerState => {
            let xml = definition(alloc, reader)?;
            let number = reader.take_i32()?;
            let state = reader.take_opaque_within(alloc, MOST_STATE_BYTES as u32)?;
            Ok(Arguments::DefinitionIntegerState(xml, number, state))
        }
    }
}

// All of the payload of a call of this line.
#[tactic(auto, unfolding(wire_spec::specs::XdrReading::whole))]
fn call(
    alloc: Global,
    row: &Row,
    payload: &[u8],
) -> Result<(Target, Arguments), OrNoMemory<XdrFault>>
    ensures { UnlessNoMemory result (whole (first_call row.now) payload.now) }
{
    let mut reader = Reader::new(payload);
    let target = target(alloc, row.target, &mut reader)?;
    let arguments = arguments(alloc, row.arguments, &mut reader)?;
    reader.end()?;
    Ok((target, arguments))
}

/// The request that the payload of a call of this line spells.
#[tactic(auto, unfolding(procedure_spec::specs::ArgumentsReading::request_in))]
pub(crate) fn requested(
    alloc: Global,
    row: &Row,
    payload: &[u8],
) -> Result<Request, OrNoMemory<ArgFault>>
    ensures { UnlessNoMemory result (request_in row.now payload.now) }
{
    let (target, arguments) = lifted(call(alloc, row, payload))?;
    match request(row.procedure, target, arguments) {
        Some(request) => Ok(request),
        None => Err(OrNoMemory::Fault(ArgFault::Procedure)),
    }
}
