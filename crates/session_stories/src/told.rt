// What sessions were told, in words.
use crate::asked::{INFO, word_of};
use crate::lines::Lines;
use driver_sessions::Served;
use packet::memory::MemorySink;
use packet::{Feed, OK, Packet};
use remote_args::read_error;
use std::alloc::Global;
use types_base::OrNoMemory;

// What the payload of a reply says that something was done. The first word of an info is the state.
fn put_done(lines: &mut Lines, procedure: u32, payload: &[u8]) {
    lines.put("Ok");
    match payload {
        [0, 0, 0, state, ..] if procedure == INFO => {
            lines.put(", state ");
            lines.put_shown(*state);
        }
        _ => {}
    }
}

// What the payload of an error says.
fn put_refused(lines: &mut Lines, alloc: Global, payload: &[u8]) {
    match read_error(alloc, payload) {
        Ok(refusal) => {
            lines.put_shown(refusal.code.number());
            lines.put(" ");
            lines.put(refusal.kept.as_str());
        }
        Err(OrNoMemory::Fault(_)) => lines.put("refused, unread"),
        Err(OrNoMemory::NoMemory) => lines.lose(),
    }
}

// What a reply says.
fn put_reply(lines: &mut Lines, alloc: Global, reply: &Packet) {
    let procedure = reply.header.procedure;
    lines.put(word_of(procedure));
    lines.put(" ");
    if reply.header.status == OK {
        put_done(lines, procedure, reply.payload.as_slice());
    } else {
        put_refused(lines, alloc, reply.payload.as_slice());
    }
}

// What the replies say, in order. One that is the same as the one before it is left out: how often a call is repeated differs
// from run to run.
fn put_replies(lines: &mut Lines, alloc: Global, feed: &mut Feed) {
    let mut last = Lines::new(alloc);
    while let Some(reply) = feed.next() {
        let mut said = Lines::new(alloc);
        put_reply(&mut said, alloc, &reply);
        if said.as_str() != last.as_str() {
            lines.put(said.as_str());
            lines.put("; ");
        }
        last = said;
    }
}

// The replies that these bytes are.
fn put_bytes(lines: &mut Lines, alloc: Global, bytes: &[u8]) {
    match Feed::new(alloc) {
        Ok(mut feed) => {
            if feed.feed(bytes).is_ok() {
                put_replies(lines, alloc, &mut feed);
            } else {
                lines.put("not read; ");
            }
        }
        Err(_) => lines.lose(),
    }
}

/// A line for each session: what each of its calls was told, and how it ended.
pub(crate) fn told<S, N, T>(alloc: Global, all: &[Served<S, MemorySink, N, T>]) -> Lines {
    let mut lines = Lines::new(alloc);
    for served in all {
        lines.put("  session ");
        lines.put_shown(served.session.number);
        lines.put(": ");
        put_bytes(&mut lines, alloc, served.session.sink.bytes());
        lines.put_shown(served.end);
        lines.put("\n");
    }
    lines.put("  closed");
    lines
}
