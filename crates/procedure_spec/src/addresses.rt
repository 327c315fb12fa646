// Addresses of the network as texts, as leases and the definitions of networks have them.
ghost use Rattle.std.specs.Prelude.{◌≡◌, IfOk};
ghost use Rattle.std.specs.String.{string_bytes};
ghost use Rattle.procedure_spec.specs.LeaseText as written;

use std::alloc::Global;
use std::net::Ipv4Addr;
use virt_types::NoMemory;

/// The address that a text is: four decimal numbers with dots between them.
#[tactic(auto, using(crate::proofs::LeaseTexts::address_parsed))]
pub fn address_of(text: &str) -> Option<u32>
    ensures { result ≡ written.address_written text.now }
{
    match text.parse::<Ipv4Addr>() {
        Ok(address) => Some(address.to_bits()),
        Err(_) => None,
    }
}

/// The text of an address.
pub fn address_text(alloc: Global, address: u32) -> Result<String, NoMemory>
    ensures { IfOk result (λ text. string_bytes text ≡ written.address_text address) }
{
    Ok(Ipv4Addr::from_bits(address).to_string(alloc)?)
}
