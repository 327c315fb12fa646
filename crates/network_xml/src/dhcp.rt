// Which addresses a network leases, read.
ghost use Rattle.std.specs.Prelude.{◌≡◌, codes, filter, map, option_map};
ghost use Rattle.text_spec.specs.Tree.{seen};
ghost use Rattle.xml_tables.specs.Called.{all_called, is_called as called};
ghost use Rattle.types_base.specs.Memory.{UnlessNoMemory};
ghost use Rattle.network_xml.specs.NetworkText as spec;

use crate::addresses::{needed_address, needed_mac};
use crate::subnet::Subnet;
use std::alloc::Global;
use text_spec::{DefFault, DefKind, Tree};
use types_base::{AddressRange, Dhcp, HostLine, HostLineList, NoMemory, OrNoMemory};
use xml_tables::{fault_at_path, first_called, is_called, value_called};

#[tactic(auto, unfolding(crate::specs::NetworkText::range_of))]
fn range_of(
    alloc: Global,
    subnet: Subnet,
    tree: &Tree,
) -> Result<AddressRange, OrNoMemory<DefFault>>
    ensures { UnlessNoMemory result (spec.range_of subnet (seen tree.now)) }
{
    let path = "/network/ip/dhcp/range";
    let start = match needed_address(alloc, path, value_called("start", tree)) {
        Ok(start) => start,
        Err(fault) => return Err(fault),
    };
    let end = match needed_address(alloc, path, value_called("end", tree)) {
        Ok(end) => end,
        Err(fault) => return Err(fault),
    };
    let range = AddressRange { start, end };
    if subnet.has_range(range) {
        Ok(range)
    } else {
        Err(fault_at_path(alloc, path, DefKind::Range))
    }
}

fn optional_range(
    alloc: Global,
    subnet: Subnet,
    element: Option<&Tree>,
) -> Result<Option<AddressRange>, OrNoMemory<DefFault>>
    ensures { UnlessNoMemory result (spec.if_there (spec.range_of subnet) (option_map (λ t. seen t.now) element.entry)) }
{
    match element {
        None => Ok(None),
        Some(element) => match range_of(alloc, subnet, element) {
            Ok(range) => Ok(Some(range)),
            Err(fault) => Err(fault),
        },
    }
}

#[tactic(auto, unfolding(crate::specs::NetworkText::host_of))]
fn host_of(alloc: Global, subnet: Subnet, tree: &Tree) -> Result<HostLine, OrNoMemory<DefFault>>
    ensures { UnlessNoMemory result (spec.host_of subnet (seen tree.now)) }
{
    let path = "/network/ip/dhcp/host";
    let mac = match needed_mac(alloc, path, value_called("mac", tree)) {
        Ok(mac) => mac,
        Err(fault) => return Err(fault),
    };
    let address = match needed_address(alloc, path, value_called("ip", tree)) {
        Ok(address) => address,
        Err(fault) => return Err(fault),
    };
    if subnet.contains(address) {
        Ok(HostLine { mac, address })
    } else {
        Err(fault_at_path(alloc, path, DefKind::Range))
    }
}

/// The host lines among elements, in order.
fn hosts_among(
    alloc: Global,
    subnet: Subnet,
    trees: &[Tree],
) -> Result<HostLineList, OrNoMemory<DefFault>>
    ensures { UnlessNoMemory result (spec.hosts_of subnet (filter (called (codes "host")) (map seen trees.now))) }
{
    let mut hosts = HostLineList::new(alloc);
    let mut rest = trees;
    while let Some((tree, after)) = rest.split_first() {
        if is_called("host", tree) {
            match host_of(alloc, subnet, tree) {
                Ok(host) => hosts.push(host)?,
                Err(fault) => return Err(fault),
            }
        }
        rest = after;
    }
    Ok(hosts)
}

#[tactic(auto, using(text_spec::proofs::Seen::children_seen), unfolding(xml_tables::specs::Called::all_called))]
fn hosts_in(
    alloc: Global,
    subnet: Subnet,
    tree: &Tree,
) -> Result<HostLineList, OrNoMemory<DefFault>>
    ensures { UnlessNoMemory result (spec.hosts_of subnet (all_called (codes "host") (seen tree.now))) }
{
    hosts_among(alloc, subnet, tree.children.as_slice())
}

#[tactic(auto, unfolding(crate::specs::NetworkText::dhcp_of))]
fn dhcp_of(alloc: Global, subnet: Subnet, tree: &Tree) -> Result<Dhcp, OrNoMemory<DefFault>>
    ensures { UnlessNoMemory result (spec.dhcp_of subnet (seen tree.now)) }
{
    let range = match optional_range(alloc, subnet, first_called("range", tree)) {
        Ok(range) => range,
        Err(fault) => return Err(fault),
    };
    match hosts_in(alloc, subnet, tree) {
        Ok(hosts) => Ok(Dhcp { range, hosts }),
        Err(fault) => Err(fault),
    }
}

/// Which addresses a network leases, where its definition says so.
///
/// The fault is the first in the order of the elements `range` and `host`: a value that is missing or
/// none, an address that is not the network's, a range that ends before it starts.
pub(crate) fn optional_dhcp(
    alloc: Global,
    subnet: Subnet,
    element: Option<&Tree>,
) -> Result<Option<Dhcp>, OrNoMemory<DefFault>>
    ensures { UnlessNoMemory result (spec.if_there (spec.dhcp_of subnet) (option_map (λ t. seen t.now) element.entry)) }
{
    match element {
        None => Ok(None),
        Some(element) => match dhcp_of(alloc, subnet, element) {
            Ok(dhcp) => Ok(Some(dhcp)),
            Err(fault) => Err(fault),
        },
    }
}
