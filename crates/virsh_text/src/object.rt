// What commands for snapshots, networks, pools and volumes print, by the one answer that follows the lookup; none
// where that answers something else.
ghost use Rattle.std.specs.Prelude.{◌≡◌, IfOk};
ghost use Rattle.command_spec.specs.Printed.{parent_text as parent_text_of};
ghost use Rattle.virsh_text.specs.Objects.{NetworkPrints, PoolPrints, SnapshotPrints, VolumePrints};
ghost use Rattle.virsh_text.specs.Texts.{IsTextOf};
ghost use Rattle.virt_types.specs.declared.reference.DomainRef.{DomainRef as Domain};
ghost use Rattle.virt_types.specs.declared.reference.PoolRef.{PoolRef as Pool};

use crate::action::{action_text, done, network_action, pool_action};
use crate::column::line;
use crate::list::{leases_text, names_text};
use command_spec::{NetworkVerb, PoolVerb, SnapshotVerb, VolumeVerb};
use std::alloc::Global;
use virt_types::{Name, NetworkRef, NoMemory, PoolRef, Text, TryCopy, Value};

// A name in a line of its own, where there is one.
fn parent_text(alloc: Global, parent: &Option<Name>) -> Result<Text, NoMemory>
    ensures { IfOk result (λ text. text ≡ parent_text_of parent.now) }
{
    match parent {
        Some(name) => Ok(Text::of(line(alloc, name.as_str())?)),
        None => Ok(Text::copy_of(alloc, "")?),
    }
}

/// What a command for a snapshot prints.
pub(crate) fn snapshot_text(
    alloc: Global,
    verb: SnapshotVerb,
    snapshot: &Text,
    answer: &Value,
) -> Result<Option<Text>, NoMemory>
    ensures { (d : Domain) → IfOk result (IsTextOf (SnapshotPrints verb snapshot.now d answer.now)) }
{
    match (verb, answer) {
        (SnapshotVerb::Parent, Value::Parent(parent)) => {
            Ok(Some(parent_text(alloc, parent.as_ref())?))
        }
        (SnapshotVerb::DumpXml, Value::Text(xml)) => Ok(Some(xml.copy()?)),
        (SnapshotVerb::Delete, Value::Nothing) => {
            let kind = "Domain snapshot";
            Ok(Some(done(alloc, kind, snapshot.as_str(), "deleted")?))
        }
        (SnapshotVerb::Revert, Value::Nothing) => Ok(Some(Text::copy_of(alloc, "")?)),
        _ => Ok(None),
    }
}

/// What a command for a network prints.
pub(crate) fn network_text(
    alloc: Global,
    verb: NetworkVerb,
    network: &NetworkRef,
    answer: &Value,
) -> Result<Option<Text>, NoMemory>
    ensures { IfOk result (IsTextOf (NetworkPrints verb network.now answer.now)) }
{
    match (verb, answer) {
        (NetworkVerb::DumpXml, Value::Text(xml)) => Ok(Some(xml.copy()?)),
        (NetworkVerb::Leases, Value::Leases(rows)) => {
            Ok(Some(leases_text(alloc, rows.as_slice())?))
        }
        (_, Value::Nothing) => {
            let (name, action) = (network.name.as_str(), network_action(verb));
            Ok(Some(action_text(alloc, "Network", name, action)?))
        }
        _ => Ok(None),
    }
}

/// What a command for a pool prints.
pub(crate) fn pool_text(
    alloc: Global,
    verb: PoolVerb,
    pool: &PoolRef,
    answer: &Value,
) -> Result<Option<Text>, NoMemory>
    ensures { IfOk result (IsTextOf (PoolPrints verb pool.now answer.now)) }
{
    match (verb, answer) {
        (PoolVerb::DumpXml, Value::Text(xml)) => Ok(Some(xml.copy()?)),
        (PoolVerb::VolList, Value::Names(names)) => {
            Ok(Some(names_text(alloc, names.as_slice())?))
        }
        (_, Value::Nothing) => {
            let (name, action) = (pool.name.as_str(), pool_action(verb));
            Ok(Some(action_text(alloc, "Pool", name, action)?))
        }
        _ => Ok(None),
    }
}

/// What a command for a volume prints.
pub(crate) fn volume_text(
    alloc: Global,
    verb: VolumeVerb,
    volume: &Text,
    answer: &Value,
) -> Result<Option<Text>, NoMemory>
    ensures { (p : Pool) → IfOk result (IsTextOf (VolumePrints verb volume.now p answer.now)) }
{
    match (verb, answer) {
        (VolumeVerb::Delete, Value::Nothing) => {
            Ok(Some(done(alloc, "Vol", volume.as_str(), "deleted")?))
        }
        (VolumeVerb::DumpXml, Value::Text(xml)) => Ok(Some(xml.copy()?)),
        _ => Ok(None),
    }
}
