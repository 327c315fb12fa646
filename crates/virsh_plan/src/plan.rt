// Which request follows the answers that came so far.
ghost use Rattle.std.specs.Prelude.{◌≡◌, ◌≤◌, ◌<◌, IfOk, IfSome, IsSome, length};
ghost use Rattle.command_spec.specs.declared.limits.TheConstants.{MOST_WORD_BYTES};
ghost use Rattle.virsh_plan.specs.Plan as spec;
ghost use Rattle.virsh_plan.specs.Sendable.{IsSendable};
ghost use Rattle.virsh_plan.specs.Within.{IsWithin};

use crate::domain::{
    domain_ask, image_ask, lookup_domain, number_ask, on_domain, snapshot_ask, text_ask,
};
use crate::network::{lookup_network, network_ask, on_network};
use crate::plain::{file_request, plain_request, restore_request};
use crate::pool::{lookup_pool, on_pool, pool_ask, volume_ask, volume_text_ask};
use crate::step::only;
use command_spec::{Command, Flag};
use std::alloc::Global;
use virt_types::{DomainRequest, NoMemory, Request, Value};

// The request that follows these answers.
#[tactic(auto, using(crate::proofs::Small::one_of_domain, crate::proofs::Small::one_of_network, crate::proofs::Small::one_of_pool, crate::proofs::Small::small_double))]
fn planned(
    alloc: Global,
    command: &Command,
    option: Option<Flag>,
    xml: &str,
    values: &[Value],
) -> Result<Option<Request>, NoMemory>
    requires within { IsWithin command.now }
    requires short { length xml.now ≤ MOST_WORD_BYTES }
    ensures request { IfOk result (λ next. next ≡ spec.next_request command.now option xml.now values.now) }
    ensures sendable { IfOk result (λ next. IfSome next IsSendable) }
{
    match command {
        Command::Plain { verb } => Ok(plain_request(*verb, values.len())),
        Command::File { verb, file: _ } => file_request(alloc, *verb, xml, values.len()),
        Command::Restore { image } => restore_request(alloc, image, values.len()),
        Command::Domain { verb, name } => match values {
            [] => lookup_domain(alloc, name),
            [found, more @ ..] => on_domain(alloc, found, domain_ask(*verb, option, more.len())),
        },
        Command::Number { verb, name, number } => match values {
            [] => lookup_domain(alloc, name),
            [found, more @ ..] => {
                let ask = number_ask(*verb, *number);
                on_domain(alloc, found, only(ask, more.len()))
            }
        },
        Command::SetMem { name, memory } => match values {
            [] => lookup_domain(alloc, name),
            [found, more @ ..] => {
                let ask = DomainRequest::SetMemory { memory: *memory };
                on_domain(alloc, found, only(ask, more.len()))
            }
        },
        Command::DomainFile {
            verb,
            name,
            file: _,
        } => match values {
            [] => lookup_domain(alloc, name),
            [found, more @ ..] => {
                let ask = text_ask(alloc, *verb, xml)?;
                on_domain(alloc, found, only(ask, more.len()))
            }
        },
        Command::Image { verb, name, image } => match values {
            [] => lookup_domain(alloc, name),
            [found, more @ ..] => {
                let ask = image_ask(alloc, *verb, image)?;
                on_domain(alloc, found, only(ask, more.len()))
            }
        },
        Command::Snapshot {
            verb,
            name,
            snapshot,
        } => match values {
            [] => lookup_domain(alloc, name),
            [found, more @ ..] => {
                let ask = snapshot_ask(alloc, *verb, option, snapshot)?;
                on_domain(alloc, found, only(ask, more.len()))
            }
        },
        Command::Network { verb, name } => match values {
            [] => lookup_network(alloc, name),
            [found, more @ ..] => on_network(alloc, found, only(network_ask(*verb), more.len())),
        },
        Command::Pool { verb, name } => match values {
            [] => lookup_pool(alloc, name),
            [found, more @ ..] => on_pool(alloc, found, only(pool_ask(*verb), more.len())),
        },
        Command::VolCreate { pool, file: _ } => match values {
            [] => lookup_pool(alloc, pool),
            [found, more @ ..] => {
                let ask = volume_text_ask(alloc, xml)?;
                on_pool(alloc, found, only(ask, more.len()))
            }
        },
        Command::Volume { verb, pool, volume } => match values {
            [] => lookup_pool(alloc, pool),
            [found, more @ ..] => {
                let ask = volume_ask(alloc, *verb, volume)?;
                on_pool(alloc, found, only(ask, more.len()))
            }
        },
        Command::Events { .. } => Ok(None),
    }
}

/// The request that a command makes once its calls so far were answered by these values; none where it has made all.
/// What it is about is looked up by its name first, and what the daemon answers then is what all else is asked of.
/// `xml` is the text of the command's file, of at most 65,536 bytes. `events` asks nothing here.
pub fn next_request(
    alloc: Global,
    command: &Command,
    option: Option<Flag>,
    xml: &str,
    values: &[Value],
) -> Result<Option<Request>, NoMemory>
    requires within { IsWithin command.now }
    requires short { length xml.now ≤ MOST_WORD_BYTES }
    ensures request { IfOk result (λ next. next ≡ spec.next_request command.now option xml.now values.now) }
    ensures sendable { IfOk result (λ next. IfSome next IsSendable) }
    ensures few { IfOk result (λ next. IsSome next → length values.now < 3) }
{
    planned(alloc, command, option, xml, values)
}
