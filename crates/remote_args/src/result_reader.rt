// Reading what replies carry, by the shape of the procedure's line.
ghost use Rattle.virt_types.specs.Memory.{UnlessNoMemory};
ghost use Rattle.procedure_spec.specs.ResultsReading.{first_value, value_in};
ghost use Rattle.remote_args.specs.Steps.{Walks};

use crate::item::{double_word, end, text, truth};
use crate::result_item::{info, job, migrated, name, network, optional_name, pool, reference};
use crate::result_list_reader::{domains, leases, names, pools, titles};
use procedure_spec::{ArgFault, ResultShape};
use std::alloc::Global;
use virt_types::{Boxed, OrNoMemory, Value};
use xdr_codec::Reader;

// The value at the front of what is left.
fn first(
    alloc: Global,
    shape: ResultShape,
    reader: &mut Reader<'_>,
) -> Result<Value, OrNoMemory<ArgFault>>
    ensures { Walks (first_value shape) reader.old result reader.new }
{
    match shape {
        ResultShape::Nothing => Ok(Value::Nothing),
        ResultShape::Domain => Ok(Value::Domain(Boxed::new(alloc, reference(alloc, reader)?)?)),
        ResultShape::Network => Ok(Value::Network(Boxed::new(alloc, network(alloc, reader)?)?)),
        ResultShape::Pool => Ok(Value::Pool(Boxed::new(alloc, pool(alloc, reader)?)?)),
        ResultShape::Text => Ok(Value::Text(text(alloc, reader)?)),
        ResultShape::Name => Ok(Value::Name(name(alloc, reader)?)),
        ResultShape::OptionalName => {
            Ok(Value::Parent(Boxed::new(alloc, optional_name(alloc, reader)?)?))
        }
        ResultShape::Autostart => Ok(Value::Autostart(truth(reader)?)),
        ResultShape::DoubleWord => Ok(Value::Memory(double_word(reader)?)),
        ResultShape::Names => Ok(Value::Names(names(alloc, reader)?)),
        ResultShape::Info => Ok(Value::Info(Boxed::new(alloc, info(reader)?)?)),
        ResultShape::Job => Ok(Value::Job(job(reader)?)),
        ResultShape::Domains => Ok(Value::Domains(domains(alloc, reader)?)),
        ResultShape::Pools => Ok(Value::Pools(pools(alloc, reader)?)),
        ResultShape::Titles => Ok(Value::Titles(titles(alloc, reader)?)),
        ResultShape::Migrated => {
            Ok(Value::MigratedText(Boxed::new(alloc, migrated(alloc, reader)?)?))
        }
        ResultShape::Leases => Ok(Value::Leases(leases(alloc, reader)?)),
    }
}

/// The value that the payload of a reply of this shape spells.
#[tactic(auto, unfolding(procedure_spec::specs::Reading::all))]
pub(crate) fn value(
    alloc: Global,
    shape: ResultShape,
    payload: &[u8],
) -> Result<Value, OrNoMemory<ArgFault>>
    ensures { UnlessNoMemory result (value_in shape payload.now) }
{
    let mut reader = Reader::new(payload);
    let value = first(alloc, shape, &mut reader)?;
    end(&reader)?;
    Ok(value)
}
