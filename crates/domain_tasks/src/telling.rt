// What the caller is told of what the domain said.
ghost use Rattle.std.specs.Prelude.{◌≡◌};
ghost use Rattle.domain_obj.specs.Replies.{TellsSpent};
ghost use Rattle.domain_tasks.specs.Telling.{IsPrinted, is_printed, not_built_reply, takes_memory};
ghost use Rattle.domain_spec.specs.Refusals.{bare};
ghost use Rattle.domain_spec.specs.Types.reply;

use domain_obj::{ReplyRoom, no_memory};
use outcome_spec::print_reply;
use std::alloc::Global;
use virt_types::{NoMemory, Refusal, RefusalCode, Reply, Text, Value};

// Values that callers are told in another form.
fn is_printed(value: &Value) -> bool
    ensures { result ≡ is_printed value.now }
{
    match value {
        Value::Reference(_) => true,
        Value::Definition(_) => true,
        Value::Live(_) => true,
        Value::Snapshot(_) => true,
        Value::MigratedGuest(_) => true,
        _ => false,
    }
}

// Replies that are told in another form.
fn takes_memory(said: &Reply) -> bool
    ensures { result ≡ takes_memory said.now }
{
    match said {
        Reply::Ok(value) => is_printed(value),
        Reply::No(_) => false,
    }
}

/// The reply as its caller is told it. One that is told as it is takes no memory.
pub fn tell(alloc: Global, said: Reply) -> Reply
    ensures { IsPrinted said result }
{
    if !takes_memory(&said) {
        return said;
    }
    match print_reply(alloc, said) {
        Ok(reply) => reply,
        Err(NoMemory) => no_memory(alloc),
    }
}

/// No ticket was left.
pub fn spent(alloc: Global) -> Reply
    ensures { TellsSpent result }
{
    match ReplyRoom::new(alloc) {
        Ok(room) => room.spent(),
        Err(NoMemory) => no_memory(alloc),
    }
}

/// It is not built yet.
pub fn not_built(alloc: Global) -> Reply
    ensures { result ≡ not_built_reply }
{
    Reply::No(Refusal {
        code: RefusalCode::NotBuilt,
        kept: Text::of(String::new(alloc)),
    })
}
