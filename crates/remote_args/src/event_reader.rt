// Reading the two messages of this project's own program.
ghost use Rattle.std.specs.Prelude.{Ok, IfOk};
ghost use Rattle.virt_types.specs.declared.value.Note.{Note as Told};
ghost use Rattle.virt_types.specs.Memory.{UnlessNoMemory};
ghost use Rattle.procedure_spec.specs.Events.{IsNote};
ghost use Rattle.procedure_spec.specs.EventsReading.{first_event, first_lost, first_no_number, note_in, note_of};
ghost use Rattle.procedure_spec.specs.Reading.{all};
ghost use Rattle.remote_args.specs.Steps.{Walks};

use crate::item::{end, uuid, word};
use crate::result_item::name;
use procedure_spec::{ArgFault, EVENT, EVENT_LOST, OWN, VERSION};
use std::alloc::Global;
use virt_types::{Note, OrNoMemory, Transition};
use wire_spec::Header;
use xdr_codec::Reader;

// The number of the domain, which is always -1.
#[tactic(auto, unfolding(procedure_spec::specs::EventsReading::first_no_number))]
fn pass_number(reader: &mut Reader<'_>) -> Result<(), OrNoMemory<ArgFault>>
    ensures { Walks first_no_number reader.old result reader.new }
{
    let at = reader.place();
    if word(reader)? != u32::MAX {
        return Err(OrNoMemory::Fault(ArgFault::Foreign { at }));
    }
    Ok(())
}

#[tactic(auto, unfolding(procedure_spec::specs::EventsReading::first_event))]
fn event(alloc: Global, reader: &mut Reader<'_>) -> Result<Note, OrNoMemory<ArgFault>>
    ensures { Walks first_event reader.old result reader.new }
{
    let name = name(alloc, reader)?;
    let uuid = uuid(alloc, reader)?;
    pass_number(reader)?;
    let event = word(reader)?;
    let detail = word(reader)?;
    Ok(Note::Event {
        name,
        uuid,
        transition: Transition { event, detail },
    })
}

#[tactic(auto, unfolding(procedure_spec::specs::EventsReading::first_lost))]
fn lost(alloc: Global, reader: &mut Reader<'_>) -> Result<Note, OrNoMemory<ArgFault>>
    ensures { Walks first_lost reader.old result reader.new }
{
    let name = name(alloc, reader)?;
    let uuid = uuid(alloc, reader)?;
    pass_number(reader)?;
    Ok(Note::Lost { name, uuid })
}

#[tactic(auto, unfolding(procedure_spec::specs::Reading::all))]
fn all_event(alloc: Global, payload: &[u8]) -> Result<Note, OrNoMemory<ArgFault>>
    ensures { UnlessNoMemory result (all first_event payload.now) }
{
    let mut reader = Reader::new(payload);
    let note = event(alloc, &mut reader)?;
    end(&reader)?;
    Ok(note)
}

#[tactic(auto, unfolding(procedure_spec::specs::Reading::all))]
fn all_lost(alloc: Global, payload: &[u8]) -> Result<Note, OrNoMemory<ArgFault>>
    ensures { UnlessNoMemory result (all first_lost payload.now) }
{
    let mut reader = Reader::new(payload);
    let note = lost(alloc, &mut reader)?;
    end(&reader)?;
    Ok(note)
}

fn numbered(alloc: Global, number: u32, payload: &[u8]) -> Result<Note, OrNoMemory<ArgFault>>
    ensures { UnlessNoMemory result (note_in number payload.now) }
{
    match number {
        EVENT => all_event(alloc, payload),
        EVENT_LOST => all_lost(alloc, payload),
        _ => Err(OrNoMemory::Fault(ArgFault::Procedure)),
    }
}

// The note, program and version first.
#[tactic(auto, unfolding(procedure_spec::specs::EventsReading::note_of))]
fn note(alloc: Global, header: &Header, payload: &[u8]) -> Result<Note, OrNoMemory<ArgFault>>
    ensures { UnlessNoMemory result (note_of header.now payload.now) }
{
    if header.prog != OWN {
        return Err(OrNoMemory::Fault(ArgFault::Program));
    }
    if header.vers != VERSION {
        return Err(OrNoMemory::Fault(ArgFault::Version));
    }
    numbered(alloc, header.procedure, payload)
}

/// The note that a message of this header and payload is. The payload is looked at last.
pub fn read_event(
    alloc: Global,
    header: &Header,
    payload: &[u8],
) -> Result<Note, OrNoMemory<ArgFault>>
    ensures found { IfOk result (IsNote header.now payload.now) }
    ensures only { (told : Told) → IsNote header.now payload.now told → UnlessNoMemory result (Ok told) }
    ensures fault { UnlessNoMemory result (note_of header.now payload.now) }
{
    note(alloc, header, payload)
}
