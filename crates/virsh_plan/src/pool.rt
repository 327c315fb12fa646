// What is asked of a pool, and of a volume of it.
ghost use Rattle.std.specs.Prelude.{◌≡◌, ◌≤◌, IfOk, IfSome, length};
ghost use Rattle.command_spec.specs.declared.limits.TheConstants.{MOST_WORD_BYTES};
ghost use Rattle.procedure_spec.specs.Arguments.{IsObject};
ghost use Rattle.procedure_spec.specs.Requests.{asks_of_pool};
ghost use Rattle.virt_types.specs.declared.object_request.PoolRequest.TheVariants as ask_pool;
ghost use Rattle.virsh_plan.specs.Asks as spec;
ghost use Rattle.virsh_plan.specs.Plan.{on_pool as then_on_pool};
ghost use Rattle.virsh_plan.specs.Sendable.{IsSendable, IsSmall};
ghost use Rattle.virsh_plan.specs.Targets.{pool_target as target_of};

use crate::known::known_uuid;
use command_spec::{PoolVerb, VolumeVerb};
use std::alloc::Global;
use virt_types::{NoMemory, PoolRef, PoolRequest, PoolTarget, Request, Text, Value};

/// What a command for a pool asks.
#[tactic(auto, using(crate::proofs::Small::small_nothing, crate::proofs::Small::small_integer))]
pub(crate) fn pool_ask(verb: PoolVerb) -> PoolRequest
    ensures ask { result ≡ spec.pool_ask verb }
    ensures small { IsSmall (asks_of_pool result).1 }
{
    match verb {
        PoolVerb::Start => PoolRequest::Create,
        PoolVerb::Destroy => PoolRequest::Destroy,
        PoolVerb::Undefine => PoolRequest::Undefine,
        PoolVerb::Autostart => PoolRequest::SetAutostart { autostart: 1 },
        PoolVerb::DumpXml => PoolRequest::Xml,
        PoolVerb::VolList => PoolRequest::VolList,
    }
}

/// What makes a volume by the text of a file.
#[tactic(auto, using(crate::proofs::Small::small_definition))]
pub(crate) fn volume_text_ask(alloc: Global, xml: &str) -> Result<PoolRequest, NoMemory>
    requires { length xml.now ≤ MOST_WORD_BYTES }
    ensures ask { IfOk result (λ it. it ≡ ask_pool.VolCreate xml.now) }
    ensures small { IfOk result (λ it. IsSmall (asks_of_pool it).1) }
{
    let xml = Text::copy_of(alloc, xml)?;
    Ok(PoolRequest::VolCreate { xml })
}

/// What a command for a volume asks of its pool.
#[tactic(auto, using(crate::proofs::Small::small_name))]
pub(crate) fn volume_ask(
    alloc: Global,
    verb: VolumeVerb,
    volume: &Text,
) -> Result<PoolRequest, NoMemory>
    requires { length volume.now ≤ MOST_WORD_BYTES }
    ensures ask { IfOk result (λ it. it ≡ spec.volume_ask verb volume.now) }
    ensures small { IfOk result (λ it. IsSmall (asks_of_pool it).1) }
{
    let volume = Text::copy_of(alloc, volume.as_str())?;
    Ok(match verb {
        VolumeVerb::Delete => PoolRequest::VolDelete { volume },
        VolumeVerb::DumpXml => PoolRequest::VolXml { volume },
    })
}

// A pool that was looked up, as calls on it name it.
fn pool_target(alloc: Global, pool: &PoolRef) -> Result<PoolTarget, NoMemory>
    ensures target { IfOk result (λ target. target ≡ target_of pool.now) }
    ensures spelled { IfOk result (λ target. IsObject target.name target.uuid) }
    ensures short { IfOk result (λ target. length target.name ≤ 128) }
{
    known_uuid(&pool.uuid);
    Ok(PoolTarget {
        name: Text::copy_of(alloc, pool.name.as_str())?,
        uuid: pool.uuid,
    })
}

/// The lookup of a pool by its name.
#[tactic(auto, using(crate::proofs::Small::sendable_lookup))]
pub(crate) fn lookup_pool(alloc: Global, name: &Text) -> Result<Option<Request>, NoMemory>
    requires { length name.now ≤ MOST_WORD_BYTES }
    ensures request { IfOk result (λ next. next ≡ Some (Request.PoolLookup name.now)) }
    ensures sendable { IfOk result (λ next. IfSome next IsSendable) }
{
    let name = Text::copy_of(alloc, name.as_str())?;
    Ok(Some(Request::PoolLookup { name }))
}

/// What is asked of the pool that was found.
#[tactic(auto, using(crate::proofs::Small::sendable_pool))]
pub(crate) fn on_pool(
    alloc: Global,
    found: &Value,
    ask: Option<PoolRequest>,
) -> Result<Option<Request>, NoMemory>
    requires { IfSome ask (λ it. IsSmall (asks_of_pool it).1) }
    ensures request { IfOk result (λ next. next ≡ then_on_pool found.now ask) }
    ensures sendable { IfOk result (λ next. IfSome next IsSendable) }
{
    match (found, ask) {
        (Value::Pool(pool), Some(request)) => {
            let pool = pool_target(alloc, pool.as_ref())?;
            Ok(Some(Request::OnPool { pool, request }))
        }
        _ => Ok(None),
    }
}
