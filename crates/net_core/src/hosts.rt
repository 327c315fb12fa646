// The host lines of a network.
ghost use Rattle.std.specs.Prelude.{◌≡◌, find};
ghost use Rattle.book_spec.specs.Leases.{hosted_for, is_hosted, same_mac};
ghost use Rattle.net_core.specs.Entries.{IsFirst};

use virt_types::{HostLine, Mac};

fn is_same(one: Mac, other: Mac) -> bool
    ensures { result ≡ same_mac one other }
{
    one.bytes == other.bytes
}

fn line_for(hosts: &[HostLine], mac: Mac) -> Option<HostLine>
    ensures { result ≡ find (λ host. same_mac host.mac mac) hosts.now }
{
    hosts.iter().copied().find(|host| is_same(host.mac, mac))
}

/// The address of the first line of this interface.
#[tactic(auto, unfolding(book_spec::specs::Leases::hosted_for))]
pub(crate) fn address_of(hosts: &[HostLine], mac: Mac) -> Option<u32>
    ensures { result ≡ hosted_for mac hosts.now }
{
    match line_for(hosts, mac) {
        None => None,
        Some(host) => Some(host.address),
    }
}

/// Whether a line has this address.
#[tactic(auto, unfolding(book_spec::specs::Leases::is_hosted))]
pub(crate) fn is_host_address(hosts: &[HostLine], address: u32) -> bool
    ensures { result ≡ is_hosted address hosts.now }
{
    hosts.iter().any(|host| host.address == address)
}

/// The first address from this one to that one that no line has.
pub(crate) fn first_without_line(hosts: &[HostLine], from: u64, end: u32) -> Option<u32>
    ensures { IsFirst hosts.now from end result }
{
    for address in from..u64::from(end) + 1 {
        if !is_host_address(hosts, address as u32) {
            return Some(address as u32);
        }
    }
    None
}
