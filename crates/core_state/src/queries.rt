// What is answered where a domain's state is read.
ghost use Rattle.std.specs.Prelude.{◌≡◌, IfOk, Some, None, map};
ghost use Rattle.domain_spec.specs.Read.{info_by, info_of, job_info, parent_reply, read, read_of, snapshot_reply, stored_text, text_of};
ghost use Rattle.domain_spec.specs.Reading.{reference_of, state_in};
ghost use Rattle.domain_spec.specs.Refusals.{no_domain, no_snapshot};
ghost use Rattle.domain_spec.specs.Snapshots.{snapshot_named};
ghost use Rattle.domain_spec.specs.Types.reply;
ghost use Rattle.domain_spec.specs.Types.value;

use core_rules::{reference_of, state_in};
use std::alloc::Global;
use virt_types::{
    Boxed, Domain, DomainDef, DomainInfo, DomainRow, JobInfo, Live, Name, NoMemory, Op, Phase,
    Query, Refusal, RefusalCode, Reply, State, Text, TryCopy, Value,
};

fn no_domain(alloc: Global) -> Result<Reply, NoMemory>
    ensures { IfOk result (λ it. it ≡ reply.No no_domain) }
{
    Ok(Reply::No(Refusal {
        code: RefusalCode::NoDomain,
        kept: Text::copy_of(alloc, "")?,
    }))
}

fn no_snapshot(alloc: Global, name: &Name) -> Result<Reply, NoMemory>
    ensures { IfOk result (λ it. it ≡ reply.No (no_snapshot name.now)) }
{
    Ok(Reply::No(Refusal {
        code: RefusalCode::NoSnapshot,
        kept: Text::copy_of(alloc, name.as_str())?,
    }))
}

fn stored_text(alloc: Global, stored: &Option<DomainDef>) -> Result<Reply, NoMemory>
    ensures { IfOk result (λ it. it ≡ stored_text stored.now) }
{
    match stored {
        None => no_domain(alloc),
        Some(def) => Ok(Reply::Ok(Value::Definition(Boxed::copy_of(alloc, def)?))),
    }
}

fn live_text(alloc: Global, live: &Live) -> Result<Reply, NoMemory>
    ensures { IfOk result (λ it. it ≡ reply.Ok (value.Live live.now)) }
{
    Ok(Reply::Ok(Value::Live(Boxed::copy_of(alloc, live)?)))
}

fn text_of(alloc: Global, wanted: bool, domain: &Domain) -> Result<Reply, NoMemory>
    ensures { IfOk result (λ it. it ≡ text_of wanted domain.now.live domain.now.stored) }
{
    match &domain.live {
        Some(live) if !wanted || domain.stored.is_none() => live_text(alloc, live),
        _ => stored_text(alloc, &domain.stored),
    }
}

fn info_by(live: &Option<Live>, def: &DomainDef) -> DomainInfo
    ensures { result ≡ info_by live.now def.now }
{
    DomainInfo {
        state: state_in(live),
        memory: def.memory,
        current: def.current_memory,
        vcpus: def.current_vcpus,
    }
}

fn info_reply(alloc: Global, live: &Option<Live>, def: &DomainDef) -> Result<Reply, NoMemory>
    ensures { IfOk result (λ it. it ≡ reply.Ok (value.Info (info_by live.now def.now))) }
{
    Ok(Reply::Ok(Value::Info(Boxed::new(alloc, info_by(live, def))?)))
}

fn info_of(alloc: Global, domain: &Domain) -> Result<Reply, NoMemory>
    ensures { IfOk result (λ it. it ≡ info_of domain.now.live domain.now.stored) }
{
    match (&domain.live, &domain.stored) {
        (Some(live), _) => info_reply(alloc, &domain.live, &live.def),
        (None, Some(def)) => info_reply(alloc, &domain.live, def),
        (None, None) => no_domain(alloc),
    }
}

fn job_info(op: &Option<Op>) -> JobInfo
    ensures { result ≡ job_info op.now }
{
    match op {
        None => JobInfo {
            kind: None,
            phase: Phase::Nothing,
            rest: 0,
        },
        Some(op) => JobInfo {
            kind: Some(op.kind),
            phase: op.phase,
            rest: op.remaining.unwrap_or(0),
        },
    }
}

fn parent_reply(alloc: Global, domain: &Domain, name: &Name) -> Result<Reply, NoMemory>
    ensures { IfOk result (λ it. it ≡ parent_reply name.now (snapshot_named domain.now.snaps name.now)) }
{
    match domain.snaps.find(name) {
        None => no_snapshot(alloc, name),
        Some(snap) => Ok(Reply::Ok(Value::Parent(Boxed::copy_of(alloc, &snap.parent)?))),
    }
}

fn snapshot_reply(alloc: Global, domain: &Domain, name: &Name) -> Result<Reply, NoMemory>
    ensures { IfOk result (λ it. it ≡ snapshot_reply name.now (snapshot_named domain.now.snaps name.now)) }
{
    match domain.snaps.find(name) {
        None => no_snapshot(alloc, name),
        Some(snap) => Ok(Reply::Ok(Value::Snapshot(Boxed::copy_of(alloc, snap)?))),
    }
}

fn row_of(domain: &Domain) -> Result<DomainRow, NoMemory>
    ensures { IfOk result (λ row. row ≡ record { domain = reference_of domain.now; state = state_in domain.now.live }) }
{
    Ok(DomainRow {
        domain: reference_of(domain)?,
        state: state_in(&domain.live),
    })
}

fn read_of(alloc: Global, domain: &Domain, query: &Query) -> Result<Reply, NoMemory>
    ensures { IfOk result (λ it. it ≡ read_of domain.now query.now) }
{
    match query {
        Query::Reference => Ok(Reply::Ok(Value::Reference(Boxed::new(alloc, row_of(domain)?)?))),
        Query::Text { stored } => text_of(alloc, *stored, domain),
        Query::Autostart => Ok(Reply::Ok(Value::Autostart(domain.autostart))),
        Query::Info => info_of(alloc, domain),
        Query::JobInfo => Ok(Reply::Ok(Value::Job(job_info(&domain.op)))),
        Query::SnapNames => Ok(Reply::Ok(Value::Names(domain.snaps.names(alloc)?))),
        Query::SnapParent(name) => parent_reply(alloc, domain, name),
        Query::SnapText(name) => snapshot_reply(alloc, domain, name),
    }
}

/// What a query reads of a domain's cell in this state; a vacant one has nothing to be read (42).
/// Definitions, the live part and snapshots are copied; who prints them does so outside the turn.
pub fn read(alloc: Global, state: &State, query: &Query) -> Result<Reply, NoMemory>
    ensures { IfOk result (λ it. it ≡ read state.now query.now) }
{
    match state {
        State::Vacant { .. } => no_domain(alloc),
        State::Held(domain) => read_of(alloc, domain, query),
    }
}
