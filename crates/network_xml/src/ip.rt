// The addresses of a network, read.
ghost use Rattle.std.specs.Prelude.{◌≡◌, option_map};
ghost use Rattle.text_spec.specs.Tree.{seen};
ghost use Rattle.types_base.specs.Memory.{UnlessNoMemory};
ghost use Rattle.network_xml.specs.NetworkText as spec;

use crate::addresses::{needed_address, prefix_of};
use crate::dhcp::optional_dhcp;
use crate::subnet::Subnet;
use std::alloc::Global;
use text_spec::{DefFault, Tree};
use types_base::{NetIp, OrNoMemory};
use xml_tables::{first_called, value_called};

#[tactic(auto, unfolding(crate::specs::NetworkText::ip_of))]
fn ip_of(alloc: Global, tree: &Tree) -> Result<NetIp, OrNoMemory<DefFault>>
    ensures { UnlessNoMemory result (spec.ip_of (seen tree.now)) }
{
    let address = match needed_address(alloc, "/network/ip", value_called("address", tree)) {
        Ok(address) => address,
        Err(fault) => return Err(fault),
    };
    let (mask, number) = (value_called("netmask", tree), value_called("prefix", tree));
    let prefix = match prefix_of(alloc, mask, number) {
        Ok(prefix) => prefix,
        Err(fault) => return Err(fault),
    };
    let subnet = Subnet { address, prefix };
    match optional_dhcp(alloc, subnet, first_called("dhcp", tree)) {
        Ok(dhcp) => Ok(NetIp {
            address,
            prefix,
            dhcp,
        }),
        Err(fault) => Err(fault),
    }
}

/// The addresses of a network that has some.
///
/// The fault is the first in this order: an address that is missing or none, a netmask or a prefix
/// that is, and those of `dhcp`.
pub(crate) fn optional_ip(
    alloc: Global,
    element: Option<&Tree>,
) -> Result<Option<NetIp>, OrNoMemory<DefFault>>
    ensures { UnlessNoMemory result (spec.if_there spec.ip_of (option_map (λ t. seen t.now) element.entry)) }
{
    match element {
        None => Ok(None),
        Some(element) => match ip_of(alloc, element) {
            Ok(ip) => Ok(Some(ip)),
            Err(fault) => Err(fault),
        },
    }
}
