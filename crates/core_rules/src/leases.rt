// The ask by which an interface gets an address.
ghost use Rattle.std.specs.Prelude.{◌≡◌, IfOk, if◌then◌else◌, length};
ghost use Rattle.domain_spec.specs.Call.{lease_for, lease_of};
ghost use Rattle.domain_spec.specs.Devices.{is_on_network, network_in, network_of};
ghost use Rattle.core_rules.specs.Next.{at_most};

use std::alloc::Global;
use virt_types::{Ask, Interface, InterfaceSource, InterfaceType, Mac, NoMemory, Text, TryCopy};

fn is_on_network(kind: InterfaceType) -> bool
    ensures { result ≡ is_on_network kind }
{
    matches!(kind, InterfaceType::Network)
}

fn network_in(alloc: Global, source: &Option<InterfaceSource>) -> Result<Text, NoMemory>
    ensures { IfOk result (λ network. network ≡ network_in source.now) }
{
    match source {
        None => Text::copy_of(alloc, ""),
        Some(source) => match &source.network {
            None => Text::copy_of(alloc, ""),
            Some(network) => network.copy(),
        },
    }
}

/// Whether an interface gets an address: it is of type network and has a MAC.
pub fn has_lease(interface: &Interface) -> bool
    ensures { length (lease_of interface.now) ≡ (if result then 1 else 0) }
{
    is_on_network(interface.kind) && interface.mac.is_some()
}

/// The ask by which an interface of type network with a MAC gets an address.
pub fn lease_of(alloc: Global, interface: &Interface) -> Result<Option<Ask>, NoMemory>
    ensures { IfOk result (λ ask. at_most ask ≡ lease_of interface.now) }
{
    if !is_on_network(interface.kind) {
        return Ok(None);
    }
    match interface.mac {
        None => Ok(None),
        Some(mac) => Ok(Some(Ask::Lease {
            network: network_in(alloc, &interface.source)?,
            mac,
        })),
    }
}
