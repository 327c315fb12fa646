// The calls of a job over a connection of its own.
ghost use Rattle.std.specs.Prelude.{◌≡◌, ◌≤◌, IfOk, None, length, option_map};
ghost use Rattle.command_spec.specs.declared.limits.TheConstants.{MOST_WORD_BYTES};
ghost use Rattle.virsh_plan.specs.Within.{IsWithin};
ghost use Rattle.virsh.specs.Ends.{HasRun, HasTold, IsPrintable, SaysEnd};
ghost use Rattle.virsh.specs.Listening.{heard_of as heard_of_command};
ghost use Rattle.virsh.specs.Outside.{with_out};
ghost use Rattle.virsh.specs.Top.{DoesWith, IsServedCommand, UsesEnds, address_of as address_of_job};

use crate::calls::{ValueList, ask_all};
use crate::dial::Dial;
use crate::listen::listen;
use crate::print::print;
use crate::say::{say_link, say_out_of_memory, say_refusal};
use crate::status::{DONE, LINK, OUT_OF_MEMORY, REFUSED};
use crate::stop::Stop;
use command_spec::{Command, Job, NumberVerb};
use rpc_client::Client;
use std::alloc::Global;
use virsh_text::text_of;
use virt_types::{DomainRef, Failed, NoMemory, Text, TryCopy, Value};

/// The address of the daemon, where the words have none.
const DEFAULT_ADDRESS: &str = "127.0.0.1:16509";

fn address_of(alloc: Global, job: &Job) -> Result<Text, NoMemory>
    ensures { IfOk result (λ address. address ≡ address_of_job job.now) }
{
    match &job.address {
        Some(address) => address.copy(),
        None => Text::copy_of(alloc, DEFAULT_ADDRESS),
    }
}

// Whose events a command waits for, and how many of them.
fn heard_of<'a>(command: &Command, values: &'a [Value]) -> Option<(&'a DomainRef, u32)>
    ensures { option_map (λ h. (h.0.now, h.1)) result ≡ heard_of_command command.now values.now }
{
    match (command, values) {
        (
            Command::Number {
                verb: NumberVerb::Event,
                number,
                ..
            },
            [Value::Domain(domain), ..],
        ) => Some((domain.as_ref(), *number)),
        _ => None,
    }
}

// Prints the text of a job whose calls were answered by these values, and then the events that it waits for.
fn print_all<D: Dial>(
    alloc: Global,
    dial: &mut D,
    client: &mut Client<D::S, D::K>,
    job: &Job,
    values: &ValueList,
) -> Result<(), Stop>
    requires sound { client.old.fault ≡ None }
    requires printable { IsPrintable job.now values.now }
    ensures told { HasTold D.S.left D.S.faults D.K.held D.K.faults D.O.held D.O.faults job.now values.now
        client.old client.new (D.given dial.old).out (D.given dial.new).out result }
    ensures rest { D.given dial.new ≡ with_out (D.given dial.new).out (D.given dial.old) }
{
    match text_of(alloc, &job.command, job.option, values.as_slice()) {
        Ok(Some(text)) => match print(dial, text.as_bytes()) {
            Ok(()) => {}
            Err(Failed) => return Err(Stop::Link),
        },
        Ok(None) => return Err(Stop::Link),
        Err(NoMemory) => return Err(Stop::NoMemory),
    }
    match heard_of(&job.command, values.as_slice()) {
        Some((domain, count)) => listen(alloc, dial, client, domain, count),
        None => Ok(()),
    }
}

// Does a job over a connection.
fn run<D: Dial>(
    alloc: Global,
    dial: &mut D,
    client: &mut Client<D::S, D::K>,
    job: &Job,
    xml: &str,
) -> Result<(), Stop>
    requires within { IsWithin job.now.command }
    requires served { IsServedCommand job.now.command }
    requires short { length xml.now ≤ MOST_WORD_BYTES }
    requires sound { client.old.fault ≡ None }
    ensures run { HasRun D.S.left D.S.faults D.K.held D.K.faults D.O.held D.O.faults job.now xml.now
        client.old client.new (D.given dial.old).out (D.given dial.new).out result }
    ensures rest { D.given dial.new ≡ with_out (D.given dial.new).out (D.given dial.old) }
{
    match ask_all(alloc, client, job, xml) {
        Ok(values) => print_all(alloc, dial, client, job, &values),
        Err(stop) => Err(stop),
    }
}

// Says why a job is not done, where it is not, and answers its status.
fn say_end<D: Dial>(alloc: Global, dial: &mut D, done: &Result<(), Stop>) -> u8
    ensures { SaysEnd done.now (D.given dial.old) (D.given dial.new) result }
{
    let Err(stop) = done else {
        return DONE;
    };
    match stop {
        Stop::Refused(refusal) => match say_refusal(alloc, dial, refusal) {
            Ok(()) => REFUSED,
            Err(NoMemory) => {
                say_out_of_memory(dial);
                OUT_OF_MEMORY
            }
        },
        Stop::Link => {
            say_link(dial);
            LINK
        }
        Stop::NoMemory => {
            say_out_of_memory(dial);
            OUT_OF_MEMORY
        }
    }
}

// Does a job over these ends of a connection, which are given back.
fn use_ends<D: Dial>(
    alloc: Global,
    dial: &mut D,
    job: &Job,
    xml: &str,
    source: D::S,
    sink: D::K,
) -> u8
    requires within { IsWithin job.now.command }
    requires served { IsServedCommand job.now.command }
    requires short { length xml.now ≤ MOST_WORD_BYTES }
    ensures { UsesEnds D.S.left D.S.faults D.K.held D.K.faults D.O.held D.O.faults job.now xml.now (source, sink)
        (D.given dial.old) (D.given dial.new) result }
{
    match Client::new(alloc, source, sink) {
        Ok(mut client) => {
            let done = run(alloc, dial, &mut client, job, xml);
            let status = say_end(alloc, dial, &done);
            let (source, sink) = client.close();
            dial.ended(source, sink);
            status
        }
        Err((source, sink, NoMemory)) => {
            say_out_of_memory(dial);
            dial.ended(source, sink);
            OUT_OF_MEMORY
        }
    }
}

/// Dials the daemon and does a job, whose file has this text.
pub(crate) fn serve<D: Dial>(alloc: Global, dial: &mut D, job: &Job, xml: &str) -> u8
    requires within { IsWithin job.now.command }
    requires served { IsServedCommand job.now.command }
    requires short { length xml.now ≤ MOST_WORD_BYTES }
    ensures { DoesWith D.S.left D.S.faults D.K.held D.K.faults D.O.held D.O.faults job.now xml.now (D.given dial.old) (D.given dial.new) result }
{
    let address = match address_of(alloc, job) {
        Ok(address) => address,
        Err(NoMemory) => {
            say_out_of_memory(dial);
            return OUT_OF_MEMORY;
        }
    };
    match dial.dial(&address) {
        Ok((source, sink)) => use_ends(alloc, dial, job, xml, source, sink),
        Err(Failed) => {
            say_link(dial);
            LINK
        }
    }
}
