// The events of a domain, printed as they come.
ghost use Rattle.std.specs.Prelude.{◌≡◌, IfErr, IfOk, None, OnOk};
ghost use Rattle.virsh.specs.Listening.{GivesOf, HasListened, IsNoNote, is_of as is_of_domain, is_same as is_same_as};
ghost use Rattle.virsh.specs.Outside.{with_out};

use crate::dial::Dial;
use crate::print::print;
use crate::stop::Stop;
use packet::{Sink, Source};
use rpc_client::Client;
use std::alloc::Global;
use virsh_text::note_line;
use virt_types::{DomainRef, Failed, NoMemory, Note, OrNoMemory, Uuid};

fn is_same(domain: &DomainRef, name: &str, uuid: &Uuid) -> bool
    ensures { result ≡ is_same_as domain.now name.now uuid.now }
{
    domain.name.as_str() == name && domain.uuid == *uuid
}

// Whether a note is of a domain.
fn is_of(domain: &DomainRef, note: &Note) -> bool
    ensures { result ≡ is_of_domain domain.now note.now }
{
    match note {
        Note::Event { name, uuid, .. } => is_same(domain, name.as_str(), uuid),
        Note::Lost { name, uuid } => is_same(domain, name.as_str(), uuid),
    }
}

// The next note of a domain. One of another domain is no answer.
fn next_note<S: Source + Drop, K: Sink + Drop>(
    client: &mut Client<S, K>,
    domain: &DomainRef,
) -> Result<Note, Stop>
    requires sound { client.old.fault ≡ None }
    ensures ok { IfOk result (GivesOf S.left S.faults domain.now client.old client.new) }
    ensures err { IfErr result (IsNoNote S.left S.faults domain.now client.old client.new) }
    ensures on { OnOk result (client.new.fault ≡ None) }
{
    match client.next_note() {
        Ok(note) => {
            if is_of(domain, &note) {
                Ok(note)
            } else {
                Err(Stop::Link)
            }
        }
        Err(OrNoMemory::Fault(_)) => Err(Stop::Link),
        Err(OrNoMemory::NoMemory) => Err(Stop::NoMemory),
    }
}

/// Prints so many events of a domain, each as it comes. After `events lost` no more come.
pub(crate) fn listen<D: Dial>(
    alloc: Global,
    dial: &mut D,
    client: &mut Client<D::S, D::K>,
    domain: &DomainRef,
    count: u32,
) -> Result<(), Stop>
    requires sound { client.old.fault ≡ None }
    ensures told { HasListened D.S.left D.S.faults D.O.held D.O.faults domain.now count client.old client.new
        (D.given dial.old).out (D.given dial.new).out result }
    ensures rest { D.given dial.new ≡ with_out (D.given dial.new).out (D.given dial.old) }
{
    for _told in 0..count {
        let note = match next_note(client, domain) {
            Ok(note) => note,
            Err(stop) => return Err(stop),
        };
        let line = match note_line(alloc, &note) {
            Ok(line) => line,
            Err(NoMemory) => return Err(Stop::NoMemory),
        };
        match print(dial, line.as_bytes()) {
            Ok(()) => {}
            Err(Failed) => return Err(Stop::Link),
        }
        match &note {
            Note::Lost { .. } => return Ok(()),
            Note::Event { .. } => {}
        }
    }
    Ok(())
}
