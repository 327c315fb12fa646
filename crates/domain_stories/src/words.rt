// How rows write replies, what was read and how a hearing ended.
use crate::row::Row;
use domain_threads::{Hushed, Queried};
use virt_types::{DomainInfo, Refusal, RefusalCode, Reply, Value};

/// Whether it was told that too many wait.
pub(crate) fn is_full(reply: &Reply) -> bool {
    match reply {
        Reply::No(refusal) => refusal.code == RefusalCode::TooManyWaiting,
        Reply::Ok(_) => false,
    }
}

fn put_state(row: &mut Row, info: &DomainInfo) {
    row.put("state ");
    row.put_number(info.state.number() as u64);
    row.put(", ");
    row.put_number(info.memory);
    row.put(" KiB");
}

fn put_refusal(row: &mut Row, refusal: &Refusal) {
    row.put_number(refusal.code.number() as u64);
    if !refusal.kept.is_empty() {
        row.put(" ");
        row.put(refusal.kept.as_str());
    }
}

/// A reply: `Ok`, what was read of the state, or the number of the refusal with what it is about.
pub(crate) fn put_reply(row: &mut Row, reply: &Reply) {
    match reply {
        Reply::Ok(Value::Info(info)) => put_state(row, info.as_ref()),
        Reply::Ok(_) => row.put("Ok"),
        Reply::No(refusal) => put_refusal(row, refusal),
    }
}

/// What was read of the state.
pub(crate) fn put_info(row: &mut Row, queried: &Queried) {
    row.put("info ");
    match queried {
        Queried::Read(reply, _) => put_reply(row, reply),
        Queried::NoMemory(_) => row.put("no memory"),
        Queried::Spent => row.put("spent"),
    }
    row.put(", ");
}

/// How a pass came to hear no more.
pub(crate) fn hushed_word(hushed: Hushed) -> &'static str {
    match hushed {
        Hushed::Quiet(_) => "quiet",
        Hushed::NoMemory(_) => "no memory",
        Hushed::Unheard(_) => "unheard",
        Hushed::Often(_) => "often",
        Hushed::Spent => "spent",
    }
}
