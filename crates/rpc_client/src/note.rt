// What an event says.
ghost use Rattle.std.specs.Prelude.{IfOk};
ghost use Rattle.procedure_spec.specs.Events.{IsNote};
ghost use Rattle.procedure_spec.specs.EventsReading.{note_of as first_note};
ghost use Rattle.virt_types.specs.Memory.{UnlessNoMemory};
ghost use Rattle.rpc_client.specs.Notes.{told};

use crate::fault::ClientFault;
use packet::Packet;
use remote_args::read_event;
use std::alloc::Global;
use virt_types::{Note, OrNoMemory};

/// The note that an event spells.
pub(crate) fn note_of(alloc: Global, event: &Packet) -> Result<Note, OrNoMemory<ClientFault>>
    ensures value { UnlessNoMemory result (told (first_note event.now.header event.now.payload)) }
    ensures spelled { IfOk result (IsNote event.now.header event.now.payload) }
{
    match read_event(alloc, &event.header, event.payload.as_slice()) {
        Ok(note) => Ok(note),
        Err(OrNoMemory::Fault(_)) => Err(OrNoMemory::Fault(ClientFault::BadPayload)),
        Err(OrNoMemory::NoMemory) => Err(OrNoMemory::NoMemory),
    }
}
