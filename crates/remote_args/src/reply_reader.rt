// Reading replies.
ghost use Rattle.std.specs.Prelude.{Ok, IfOk};
ghost use Rattle.virt_types.specs.declared.value.Value.{Value as Told};
ghost use Rattle.virt_types.specs.Memory.{UnlessNoMemory};
ghost use Rattle.procedure_spec.specs.Results.{IsAnswer};
ghost use Rattle.procedure_spec.specs.ResultsReading.{reply_of};

use crate::result_reader::value;
use procedure_spec::{ArgFault, result_shape};
use std::alloc::Global;
use virt_types::{OrNoMemory, Request, Value};

#[tactic(auto, unfolding(procedure_spec::specs::ResultsReading::reply_of))]
fn answer(alloc: Global, request: &Request, payload: &[u8]) -> Result<Value, OrNoMemory<ArgFault>>
    ensures { UnlessNoMemory result (reply_of request.now payload.now) }
{
    value(alloc, result_shape(request), payload)
}

/// The value that the payload of the reply to this request carries.
pub fn read_reply(
    alloc: Global,
    request: &Request,
    payload: &[u8],
) -> Result<Value, OrNoMemory<ArgFault>>
    ensures found { IfOk result (IsAnswer request.now payload.now) }
    ensures only { (told : Told) → IsAnswer request.now payload.now told → UnlessNoMemory result (Ok told) }
    ensures fault { UnlessNoMemory result (reply_of request.now payload.now) }
{
    answer(alloc, request, payload)
}
