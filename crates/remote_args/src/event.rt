// Writing the two messages of this project's own program: whole packets.
ghost use Rattle.std.specs.Prelude.{◌≡◌, ◌+◌, ◌++◌, length, IfErr, IfOk, OnOk};
ghost use Rattle.virt_types.specs.declared.value.Note.TheVariants as note;
ghost use Rattle.wire_spec.specs.Packets.{IsPacket, spelling};
ghost use Rattle.wire_spec.specs.declared.message.TheConstants.{HEADER_LENGTH};
ghost use Rattle.packet.specs.Writing.{IsTooBig};
ghost use Rattle.procedure_spec.specs.Events.{HasItems, note_header, note_items, note_packet, noted};
ghost use Rattle.procedure_spec.specs.EventsReading.{IsReadBack};
ghost use Rattle.procedure_spec.specs.ResultItems.{IsObjectReference};

use crate::result::put_object;
use packet::{WriteFault, begin_packet, finish_packet};
use procedure_spec::{EVENT, EVENT_LOST, OWN, VERSION};
use std::alloc::Global;
use virt_types::{Bytes, Name, NoMemory, OrNoMemory, Transition, Uuid};
use wire_spec::{Header, MESSAGE, OK};
use xdr_codec::Writer;

fn message(procedure: u32) -> Header
    ensures { result ≡ note_header procedure }
{
    Header {
        prog: OWN,
        vers: VERSION,
        procedure,
        kind: MESSAGE,
        serial: 0,
        status: OK,
    }
}

// The domain of a message: its number is always -1.
fn put_noted(writer: &mut Writer, name: &Name, uuid: &Uuid) -> Result<(), NoMemory>
    ensures written { OnOk result (writer.new ≡ writer.old ++ noted name.now uuid.now) }
    ensures reference { OnOk result (IsObjectReference name.now uuid.now) }
{
    put_object(writer, name, uuid)?;
    writer.put_i32(-1)
}

fn put_event(
    writer: &mut Writer,
    name: &Name,
    uuid: &Uuid,
    transition: Transition,
) -> Result<(), NoMemory>
    ensures written { OnOk result (writer.new ≡ writer.old ++ note_items (note.Event name.now uuid.now transition)) }
    ensures items { OnOk result (HasItems (note.Event name.now uuid.now transition)) }
{
    put_noted(writer, name, uuid)?;
    writer.put_u32(transition.event)?;
    writer.put_u32(transition.detail)
}

/// The message that this came about in the domain.
pub fn write_event(
    alloc: Global,
    name: &Name,
    uuid: &Uuid,
    transition: Transition,
) -> Result<Bytes, OrNoMemory<WriteFault>>
    ensures bytes { IfOk result (λ bytes. bytes ≡ spelling (note_packet (note.Event name.now uuid.now transition))) }
    ensures packet { OnOk result (IsPacket (note_packet (note.Event name.now uuid.now transition))) }
    ensures err { IfErr result (IsTooBig (HEADER_LENGTH + length (note_items (note.Event name.now uuid.now transition)))) }
    ensures reads_back { OnOk result (IsReadBack (note.Event name.now uuid.now transition)) }
{
    let mut writer = begin_packet(alloc, &message(EVENT))?;
    put_event(&mut writer, name, uuid, transition)?;
    finish_packet(writer)
}

/// The message that events of the domain were lost, and that the registration has ended.
pub fn write_lost(alloc: Global, name: &Name, uuid: &Uuid) -> Result<Bytes, OrNoMemory<WriteFault>>
    ensures bytes { IfOk result (λ bytes. bytes ≡ spelling (note_packet (note.Lost name.now uuid.now))) }
    ensures packet { OnOk result (IsPacket (note_packet (note.Lost name.now uuid.now))) }
    ensures err { IfErr result (IsTooBig (HEADER_LENGTH + length (note_items (note.Lost name.now uuid.now)))) }
    ensures reads_back { OnOk result (IsReadBack (note.Lost name.now uuid.now)) }
{
    let mut writer = begin_packet(alloc, &message(EVENT_LOST))?;
    put_noted(&mut writer, name, uuid)?;
    finish_packet(writer)
}
