// Messages.
use crate::lines::Line;
use remote_args::{read_event, write_event, write_lost};
use std::alloc::Global;
use virt_types::{Note, OrNoMemory, Transition};
use wire_spec::Header;

fn put_transition(line: &mut Line, transition: Transition) {
    line.put("event ");
    line.put_number(transition.event as u64);
    line.put(" ");
    line.put_number(transition.detail as u64);
    line.put(" of ");
}

// What a message tells, and the packet that is written of that.
fn put_note(line: &mut Line, alloc: Global, note: &Note) {
    let (name, uuid, written) = match note {
        Note::Event {
            name,
            uuid,
            transition,
        } => {
            put_transition(line, *transition);
            (name, uuid, write_event(alloc, name, uuid, *transition))
        }
        Note::Lost { name, uuid } => {
            line.put("lost ");
            (name, uuid, write_lost(alloc, name, uuid))
        }
    };
    line.put(name.as_str());
    line.put(" ");
    line.put_bytes(uuid.as_bytes());
    line.put(" | ");
    match written {
        Ok(packet) => line.put_bytes(packet.as_slice()),
        Err(_) => line.lose(),
    }
}

/// What a message tells, and the packet that is written of that; or why the payload is no message.
pub(crate) fn put_message(line: &mut Line, alloc: Global, header: &Header, payload: &[u8]) {
    match read_event(alloc, header, payload) {
        Ok(note) => put_note(line, alloc, &note),
        Err(OrNoMemory::Fault(fault)) => line.put_fault(fault),
        Err(OrNoMemory::NoMemory) => line.lose(),
    }
}
