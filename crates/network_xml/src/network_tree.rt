// The trees of networks.
ghost use Rattle.std.specs.Prelude.{◌≡◌, ◌++◌, ◌∷◌, [], IfOk, OnOk, map};
ghost use Rattle.text_spec.specs.Tree.{seen};
ghost use Rattle.xml_tables.specs.Spelled.{worth};
ghost use Rattle.network_xml.specs.NetworkPrinted as spec;

use crate::subnet::mask_of;
use procedure_spec::address_text;
use std::alloc::Global;
use text_spec::{PairList, Tree};
use types_base::{AddressRange, Dhcp, ForwardMode, HostLine, NetDef, NetIp, NoMemory, Text, Uuid};
use xml_print::tree_fits;
use xml_tables::{add, add_uuid, push_worth, spelled, worded};
use xml_words::mac_text;

/// Two attributes, each with its value.
fn two_worths(
    alloc: Global,
    first: &str,
    value: &str,
    second: &str,
    other: &str,
) -> Result<PairList, NoMemory>
    ensures { IfOk result (λ pairs. pairs ≡ worth first.now value.now ∷ worth second.now other.now ∷ []) }
{
    let mut attributes = PairList::new(alloc);
    push_worth(alloc, &mut attributes, first, value)?;
    push_worth(alloc, &mut attributes, second, other)?;
    Ok(attributes)
}

fn range_tree(alloc: Global, range: AddressRange) -> Result<Tree, NoMemory>
    ensures { IfOk result (λ t. seen t ≡ spec.range_tree range) }
{
    let start = address_text(alloc, range.start)?;
    let end = address_text(alloc, range.end)?;
    let attributes = two_worths(alloc, "start", start.as_str(), "end", end.as_str())?;
    spelled(alloc, "range", attributes, "", Vec::new(alloc))
}

fn host_tree(alloc: Global, host: HostLine) -> Result<Tree, NoMemory>
    ensures { IfOk result (λ t. seen t ≡ spec.host_tree host) }
{
    let mac = mac_text(alloc, host.mac)?;
    let address = address_text(alloc, host.address)?;
    let attributes = two_worths(alloc, "mac", mac.as_str(), "ip", address.as_str())?;
    spelled(alloc, "host", attributes, "", Vec::new(alloc))
}

fn add_hosts(alloc: Global, out: &mut Vec<Tree>, hosts: &[HostLine]) -> Result<(), NoMemory>
    ensures { OnOk result (map seen out.new.items ≡ map seen out.old.items
        ++ map spec.host_tree hosts.now) }
{
    let mut rest = hosts;
    while let Some((host, following)) = rest.split_first() {
        add(out, host_tree(alloc, *host)?)?;
        rest = following;
    }
    Ok(())
}

fn add_range(
    alloc: Global,
    out: &mut Vec<Tree>,
    range: Option<AddressRange>,
) -> Result<(), NoMemory>
    ensures { OnOk result (map seen out.new.items ≡ map seen out.old.items
        ++ spec.if_some spec.range_tree range) }
{
    match range {
        Some(range) => add(out, range_tree(alloc, range)?),
        None => Ok(()),
    }
}

fn dhcp_tree(alloc: Global, dhcp: &Dhcp) -> Result<Tree, NoMemory>
    ensures { IfOk result (λ t. seen t ≡ spec.dhcp_tree dhcp.now) }
{
    let mut children = Vec::new(alloc);
    add_range(alloc, &mut children, dhcp.range)?;
    add_hosts(alloc, &mut children, dhcp.hosts.as_slice())?;
    spelled(alloc, "dhcp", PairList::new(alloc), "", children)
}

fn add_dhcp(alloc: Global, out: &mut Vec<Tree>, dhcp: &Option<Dhcp>) -> Result<(), NoMemory>
    ensures { OnOk result (map seen out.new.items ≡ map seen out.old.items
        ++ spec.if_some spec.dhcp_tree dhcp.now) }
{
    match dhcp {
        Some(dhcp) => add(out, dhcp_tree(alloc, dhcp)?),
        None => Ok(()),
    }
}

fn ip_tree(alloc: Global, ip: &NetIp) -> Result<Tree, NoMemory>
    ensures { IfOk result (λ t. seen t ≡ spec.ip_tree ip.now) }
{
    let address = address_text(alloc, ip.address)?;
    let mask = address_text(alloc, mask_of(ip.prefix))?;
    let attributes = two_worths(alloc, "address", address.as_str(), "netmask", mask.as_str())?;
    let mut children = Vec::new(alloc);
    add_dhcp(alloc, &mut children, &ip.dhcp)?;
    spelled(alloc, "ip", attributes, "", children)
}

fn add_ip(alloc: Global, out: &mut Vec<Tree>, ip: &Option<NetIp>) -> Result<(), NoMemory>
    ensures { OnOk result (map seen out.new.items ≡ map seen out.old.items
        ++ spec.if_some spec.ip_tree ip.now) }
{
    match ip {
        Some(ip) => add(out, ip_tree(alloc, ip)?),
        None => Ok(()),
    }
}

// An element with this attribute alone.
fn one_worth(alloc: Global, word: &str, name: &str, value: &str) -> Result<Tree, NoMemory>
    ensures { IfOk result (λ t. seen t ≡ spec.one_worth word.now (worth name.now value.now)) }
{
    let mut attributes = PairList::new(alloc);
    push_worth(alloc, &mut attributes, name, value)?;
    spelled(alloc, word, attributes, "", Vec::new(alloc))
}

fn mode_word(mode: ForwardMode) -> &'static str
    ensures { result.now ≡ spec.mode_word mode }
{
    match mode {
        ForwardMode::Nat => "nat",
        ForwardMode::Route => "route",
    }
}

fn add_forward(
    alloc: Global,
    out: &mut Vec<Tree>,
    forward: Option<ForwardMode>,
) -> Result<(), NoMemory>
    ensures { OnOk result (map seen out.new.items ≡ map seen out.old.items
        ++ spec.if_some spec.forward_tree forward) }
{
    match forward {
        Some(mode) => add(out, one_worth(alloc, "forward", "mode", mode_word(mode))?),
        None => Ok(()),
    }
}

fn add_bridge(alloc: Global, out: &mut Vec<Tree>, bridge: &Option<Text>) -> Result<(), NoMemory>
    ensures { OnOk result (map seen out.new.items ≡ map seen out.old.items
        ++ spec.if_some spec.bridge_tree bridge.now) }
{
    match bridge {
        Some(name) => add(out, one_worth(alloc, "bridge", "name", name.as_str())?),
        None => Ok(()),
    }
}

/// A network with this identifier in place of its own.
#[tactic(auto, unfolding(crate::specs::NetworkPrinted::network_tree))]
pub(crate) fn network_tree(
    alloc: Global,
    def: &NetDef,
    uuid: Option<Uuid>,
) -> Result<Tree, NoMemory>
    ensures { IfOk result (λ t. seen t ≡ spec.network_tree (record def.now { uuid = uuid })) }
{
    let mut children = Vec::new(alloc);
    add(&mut children, worded(alloc, "name", def.name.as_str())?)?;
    add_uuid(alloc, &mut children, uuid)?;
    add_forward(alloc, &mut children, def.forward)?;
    add_bridge(alloc, &mut children, &def.bridge)?;
    add_ip(alloc, &mut children, &def.ip)?;
    spelled(alloc, "network", PairList::new(alloc), "", children)
}

/// Whether the text of a network, once it has an identifier, is within the limits of a text.
#[tactic(auto, unfolding(crate::specs::NetworkPrinted::network_fits))]
pub(crate) fn network_fits(alloc: Global, def: &NetDef) -> Result<bool, NoMemory>
    ensures { IfOk result (λ fits. fits ≡ spec.network_fits def.now) }
{
    let uuid = def.uuid.unwrap_or(Uuid::nil());
    let tree = network_tree(alloc, def, Some(uuid))?;
    Ok(tree_fits(&tree))
}
