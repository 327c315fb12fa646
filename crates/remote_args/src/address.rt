// Addresses of interfaces and of the network, which replies have as texts.
ghost use Rattle.std.specs.Prelude.{◌≡◌, ◌++◌, length, IfOk, OnOk};
ghost use Rattle.virt_types.specs.Mac.{mac_text as printed_mac};
ghost use Rattle.wire_spec.specs.Xdr.{opaque};
ghost use Rattle.text_laws.specs.Given.{AreBytes, IsMac};
ghost use Rattle.procedure_spec.specs.LeaseText.{address_text as printed_address, address_written, mac_written};
ghost use Rattle.procedure_spec.specs.ResultItemsReading.{first_written};
ghost use Rattle.remote_args.specs.Steps.{Walks};

use crate::item::text;
use procedure_spec::{ArgFault, address_of, address_text};
use std::alloc::Global;
use virt_types::{Mac, NoMemory, OrNoMemory};
use xdr_codec::{Reader, Writer};
use xml_words::{mac_of, mac_text};

// Two laws: an address has six numbers, and they are bytes.

fn are_six(bytes: &[u8; 6])
    ensures { length bytes.now ≡ 6 }
{}

fn are_bytes(bytes: &[u8])
    ensures { AreBytes bytes.now }
{}

#[tactic(auto, using(procedure_spec::proofs::LeaseTexts::mac_string))]
pub(crate) fn put_mac(alloc: Global, writer: &mut Writer, mac: Mac) -> Result<(), NoMemory>
    ensures written { OnOk result (writer.new ≡ writer.old ++ opaque (printed_mac mac)) }
    ensures mac { IsMac mac }
{
    are_six(&mac.bytes);
    are_bytes(&mac.bytes);
    let text = mac_text(alloc, mac)?;
    writer.put_string(text.as_bytes())
}

pub(crate) fn put_address(alloc: Global, writer: &mut Writer, address: u32) -> Result<(), NoMemory>
    ensures { OnOk result (writer.new ≡ writer.old ++ opaque (printed_address address)) }
{
    let text = address_text(alloc, address)?;
    writer.put_string(text.as_bytes())
}

// The address that a text is, where it is spelled as we print it.
#[tactic(auto, unfolding(procedure_spec::specs::LeaseText::mac_written))]
fn written_mac(alloc: Global, text: &[u8]) -> Result<Option<Mac>, NoMemory>
    ensures { IfOk result (λ mac. mac ≡ mac_written text.now) }
{
    match mac_of(text) {
        Some(mac) => {
            let printed = mac_text(alloc, mac)?;
            Ok(if printed.as_bytes() == text {
                Some(mac)
            } else {
                None
            })
        }
        None => Ok(None),
    }
}

pub(crate) fn mac(alloc: Global, reader: &mut Reader<'_>) -> Result<Mac, OrNoMemory<ArgFault>>
    ensures { Walks (first_written mac_written) reader.old result reader.new }
{
    let at = reader.place();
    let text = text(alloc, reader)?;
    match written_mac(alloc, text.as_bytes())? {
        Some(mac) => Ok(mac),
        None => Err(OrNoMemory::Fault(ArgFault::Foreign { at })),
    }
}

pub(crate) fn address(alloc: Global, reader: &mut Reader<'_>) -> Result<u32, OrNoMemory<ArgFault>>
    ensures { Walks (first_written address_written) reader.old result reader.new }
{
    let at = reader.place();
    let text = text(alloc, reader)?;
    match address_of(text.as_str()) {
        Some(address) => Ok(address),
        None => Err(OrNoMemory::Fault(ArgFault::Foreign { at })),
    }
}
