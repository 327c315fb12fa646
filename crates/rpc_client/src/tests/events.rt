// Events beside calls.
use super::link::{OPENED, PING, RESUMED, SUSPENDED, bytes_of, client, open};
use crate::{Client, ClientFault};
use packet::memory::{MemorySink, MemorySource};
use std::process::Abort;
use std::test::Fail;
use virt_types::{Note, OrNoMemory};

// The event that the next note reports.
fn event(
    rt: &impl Abort,
    client: &mut Client<MemorySource, MemorySink>,
    wanted: u32,
) -> Result<(), OrNoMemory<ClientFault>> {
    let note = client.next_note()?;
    match &note {
        Note::Event { transition, .. } => assert_eq!(rt; transition.event, wanted),
        Note::Lost { .. } => assert!(rt; false),
    }
    Ok(())
}

#[test]
fn events_before_a_reply_come_out_in_order(rt: HostRuntime) -> Result<(), Fail> {
    let bytes = bytes_of(
        rt.alloc(),
        &[&SUSPENDED, &PING, &RESUMED, &OPENED, &SUSPENDED],
    )?;
    let source = MemorySource::new(bytes).at_most(1);
    let mut client = client(rt.alloc(), source, MemorySink::new(rt.alloc()))?;
    assert!(rt; client.call(&open()).is_ok());
    event(&rt, &mut client, 3)?;
    event(&rt, &mut client, 4)?;
    event(&rt, &mut client, 3)?;
    let end = OrNoMemory::Fault(ClientFault::End);
    assert!(rt; matches!(client.next_note(), Err(fault) if fault == end));
    assert!(rt; matches!(client.call(&open()), Err(fault) if fault == end));
    Ok(())
}
