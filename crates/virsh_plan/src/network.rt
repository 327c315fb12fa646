// What is asked of a network.
ghost use Rattle.std.specs.Prelude.{◌≡◌, ◌≤◌, IfOk, IfSome, length};
ghost use Rattle.command_spec.specs.declared.limits.TheConstants.{MOST_WORD_BYTES};
ghost use Rattle.procedure_spec.specs.Arguments.{IsObject};
ghost use Rattle.procedure_spec.specs.Requests.{asks_of_network};
ghost use Rattle.virsh_plan.specs.Asks as spec;
ghost use Rattle.virsh_plan.specs.Plan.{on_network as then_on_network};
ghost use Rattle.virsh_plan.specs.Sendable.{IsSendable, IsSmall};
ghost use Rattle.virsh_plan.specs.Targets.{network_target as target_of};

use crate::known::known_uuid;
use command_spec::NetworkVerb;
use std::alloc::Global;
use virt_types::{NetworkRef, NetworkRequest, NetworkTarget, NoMemory, Request, Text, Value};

/// What a command for a network asks.
#[tactic(auto, using(crate::proofs::Small::small_nothing, crate::proofs::Small::small_word, crate::proofs::Small::small_integer))]
pub(crate) fn network_ask(verb: NetworkVerb) -> NetworkRequest
    ensures ask { result ≡ spec.network_ask verb }
    ensures small { IsSmall (asks_of_network result).1 }
{
    match verb {
        NetworkVerb::Start => NetworkRequest::Create,
        NetworkVerb::Destroy => NetworkRequest::Destroy,
        NetworkVerb::Undefine => NetworkRequest::Undefine,
        NetworkVerb::Autostart => NetworkRequest::SetAutostart { autostart: 1 },
        NetworkVerb::DumpXml => NetworkRequest::GetXmlDesc { flags: 0 },
        NetworkVerb::Leases => NetworkRequest::Leases,
    }
}

// A network that was looked up, as calls on it name it.
fn network_target(alloc: Global, network: &NetworkRef) -> Result<NetworkTarget, NoMemory>
    ensures target { IfOk result (λ target. target ≡ target_of network.now) }
    ensures spelled { IfOk result (λ target. IsObject target.name target.uuid) }
    ensures short { IfOk result (λ target. length target.name ≤ 128) }
{
    known_uuid(&network.uuid);
    Ok(NetworkTarget {
        name: Text::copy_of(alloc, network.name.as_str())?,
        uuid: network.uuid,
    })
}

/// The lookup of a network by its name.
#[tactic(auto, using(crate::proofs::Small::sendable_lookup))]
pub(crate) fn lookup_network(alloc: Global, name: &Text) -> Result<Option<Request>, NoMemory>
    requires { length name.now ≤ MOST_WORD_BYTES }
    ensures request { IfOk result (λ next. next ≡ Some (Request.NetworkLookupByName name.now)) }
    ensures sendable { IfOk result (λ next. IfSome next IsSendable) }
{
    let name = Text::copy_of(alloc, name.as_str())?;
    Ok(Some(Request::NetworkLookupByName { name }))
}

/// What is asked of the network that was found.
#[tactic(auto, using(crate::proofs::Small::sendable_network))]
pub(crate) fn on_network(
    alloc: Global,
    found: &Value,
    ask: Option<NetworkRequest>,
) -> Result<Option<Request>, NoMemory>
    requires { IfSome ask (λ it. IsSmall (asks_of_network it).1) }
    ensures request { IfOk result (λ next. next ≡ then_on_network found.now ask) }
    ensures sendable { IfOk result (λ next. IfSome next IsSendable) }
{
    match (found, ask) {
        (Value::Network(network), Some(request)) => {
            let network = network_target(alloc, network.as_ref())?;
            Ok(Some(Request::OnNetwork { network, request }))
        }
        _ => Ok(None),
    }
}
