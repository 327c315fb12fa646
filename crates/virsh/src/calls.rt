// The calls of a command.
ghost use Rattle.std.specs.Prelude.{◌≡◌, ◌≤◌, IfOk, IfErr, OnOk, None, false, length, true};
ghost use Rattle.command_spec.specs.declared.limits.TheConstants.{MOST_WORD_BYTES};
ghost use Rattle.virsh_plan.specs.Sendable.{IsSendable};
ghost use Rattle.virsh_plan.specs.Within.{IsWithin};
ghost use Rattle.virsh.specs.Calls as spec;
ghost use Rattle.virsh.specs.Calls.{brings_events as brings_events_of};

use crate::stop::Stop;
use command_spec::Job;
use packet::{Sink, Source};
use rpc_client::Client;
use std::alloc::Global;
use virsh_plan::next_request;
use virt_types::{DomainRequest, ListOf, NoMemory, OrNoMemory, Reply, Request, TryCopy, Value};

/// The values that calls were answered by.
pub(crate) type ValueList = ListOf<Value>;

// Events come after a registration alone.
fn brings_events(request: &Request) -> bool
    ensures { result ≡ spec.brings_events request.now }
{
    matches!(
        request,
        Request::OnDomain {
            request: DomainRequest::EventRegister,
            ..
        }
    )
}

// Whether an event came that nobody asked for.
fn is_unasked(has_event: bool, request: &Request) -> bool
    ensures unasked { result ≡ true → (brings_events_of request.now ≡ false) × (has_event ≡ true) }
    ensures asked { result ≡ false → brings_events_of request.now ≡ false → has_event ≡ false }
{
    if has_event {
        !brings_events(request)
    } else {
        false
    }
}

// What a reply says, where no event came that nobody asked for.
fn take_answer(has_event: bool, request: &Request, reply: &Reply) -> Result<Value, Stop>
    ensures ok { IfOk result (λ v. (reply.now ≡ Reply.Ok v) × (brings_events_of request.now ≡ false → has_event ≡ false)) }
    ensures err { IfErr result (spec.IsNoValue has_event request.now reply.now) }
{
    match reply {
        Reply::No(refusal) => match refusal.copy() {
            Ok(refusal) => Err(Stop::Refused(refusal)),
            Err(NoMemory) => Err(Stop::NoMemory),
        },
        Reply::Ok(value) => {
            if is_unasked(has_event, request) {
                return Err(Stop::Link);
            }
            match value.copy() {
                Ok(value) => Ok(value),
                Err(NoMemory) => Err(Stop::NoMemory),
            }
        }
    }
}

// Makes one call. An event that nobody asked for is no answer.
fn ask<S: Source + Drop, K: Sink + Drop>(
    client: &mut Client<S, K>,
    request: &Request,
) -> Result<Value, Stop>
    requires sendable { IsSendable request.now }
    requires sound { client.old.fault ≡ None }
    ensures ok { IfOk result (spec.IsAnswered S.left S.faults K.held K.faults request.now client.old client.new) }
    ensures err { IfErr result (spec.IsStop S.left S.faults K.held K.faults request.now client.old client.new) }
    ensures on { OnOk result (client.new.fault ≡ None) }
{
    match client.call(request) {
        Ok(reply) => take_answer(client.has_event(), request, &reply),
        Err(OrNoMemory::Fault(_)) => Err(Stop::Link),
        Err(OrNoMemory::NoMemory) => Err(Stop::NoMemory),
    }
}

/// Makes all calls of a job, whose file has this text, and gives the values that they were answered by.
pub(crate) fn ask_all<S: Source + Drop, K: Sink + Drop>(
    alloc: Global,
    client: &mut Client<S, K>,
    job: &Job,
    xml: &str,
) -> Result<ValueList, Stop>
    requires within { IsWithin job.now.command }
    requires short { length xml.now ≤ MOST_WORD_BYTES }
    requires sound { client.old.fault ≡ None }
    ensures ok { IfOk result (λ values. spec.IsAsked S.left S.faults K.held K.faults job.now xml.now client.old values client.new) }
    ensures err { IfErr result (spec.StopsOrNoMemory S.left S.faults K.held K.faults job.now xml.now client.old client.new) }
    ensures on { OnOk result (client.new.fault ≡ None) }
{
    let mut values = ListOf::new(alloc);
    'calls: loop {
        let next = next_request(alloc, &job.command, job.option, xml, values.as_slice());
        let request = match next {
            Ok(Some(request)) => request,
            Ok(None) => return Ok(values),
            Err(NoMemory) => return Err(Stop::NoMemory),
        };
        match ask(client, &request) {
            Ok(value) => match values.push(value) {
                Ok(()) => {}
                Err(NoMemory) => return Err(Stop::NoMemory),
            },
            Err(stop) => return Err(stop),
        }
    }
}
