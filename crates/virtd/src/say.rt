// What the program says on standard error.
ghost use Rattle.std.specs.Prelude.{◌≡◌};

use crate::world::World;
use daemon::{DriverFault, End, Outcome};
use daemon_settings::{BadLine, SettingsFault};
use std::alloc::{AllocError, Global};
use store_spec::BookKind;
use virt_types::{OrNoMemory, Refusal, Reply, Request, Status};

const USAGE: &[u8] = b"virtd: usage";

const STORE: &[u8] = b"virtd: store";

const LINK: &[u8] = b"virtd: link";

const OUT_OF_MEMORY: &[u8] = b"virtd: out of memory";

/// The words are those of no command.
pub(crate) fn say_usage<W: World>(world: &mut W)
    ensures { W.given world.new ≡ W.given world.old }
{
    world.say(USAGE);
}

/// There was no memory.
pub(crate) fn say_out_of_memory<W: World>(world: &mut W)
    ensures { W.given world.new ≡ W.given world.old }
{
    world.say(OUT_OF_MEMORY);
}

/// Standard input or output failed.
pub(crate) fn say_link<W: World>(world: &mut W)
    ensures { W.given world.new ≡ W.given world.old }
{
    world.say(LINK);
}

/// The store failed.
pub(crate) fn say_store<W: World>(world: &mut W)
    ensures { W.given world.new ≡ W.given world.old }
{
    world.say(STORE);
}

fn say_line<W: World>(world: &mut W, line: Result<String, AllocError>)
    ensures { W.given world.new ≡ W.given world.old }
{
    match line {
        Ok(line) => world.say(line.as_bytes()),
        Err(AllocError) => world.say(OUT_OF_MEMORY),
    }
}

/// How a session ended, where all is not well.
pub(crate) fn say_end<W: World>(alloc: Global, world: &mut W, end: &End)
    ensures { W.given world.new ≡ W.given world.old }
{
    match *end {
        End::Closed | End::Eof => {}
        End::Truncated { .. } | End::BadPacket(_) => {
            say_line(world, format!(in alloc; "virtd: {end}"));
        }
        End::SourceFault | End::SinkFault => say_link(world),
        End::NoMemory => say_out_of_memory(world),
    }
}

// The word for a kind of object in the name of its file.
fn word_of(kind: BookKind) -> &'static str {
    match kind {
        BookKind::Domain => "domain",
        BookKind::Network => "network",
        BookKind::Pool => "pool",
    }
}

/// A file of the store is damaged.
pub(crate) fn say_damaged<W: World>(alloc: Global, world: &mut W, file: &str)
    ensures { W.given world.new ≡ W.given world.old }
{
    say_line(world, format!(in alloc; "virtd: damaged {file}"));
}

/// Why a daemon is not opened.
pub(crate) fn say_fault<W: World>(alloc: Global, world: &mut W, fault: &OrNoMemory<DriverFault>)
    ensures { W.given world.new ≡ W.given world.old }
{
    match fault {
        OrNoMemory::Fault(DriverFault::Device) => say_store(world),
        OrNoMemory::Fault(DriverFault::NotADefinition { file })
        | OrNoMemory::Fault(DriverFault::BadText { file })
        | OrNoMemory::Fault(DriverFault::TooMany { file }) => {
            say_damaged(alloc, world, file.as_str());
        }
        OrNoMemory::Fault(DriverFault::TwoOfOneName { kind, one: _, two }) => {
            let word = word_of(*kind);
            say_line(world, format!(in alloc; "virtd: damaged {word}-{two}.def"));
        }
        OrNoMemory::NoMemory => say_out_of_memory(world),
    }
}

/// Why the configuration of a directory isn't known.
pub(crate) fn say_settings<W: World>(
    alloc: Global,
    world: &mut W,
    fault: &OrNoMemory<SettingsFault>,
)
    ensures { W.given world.new ≡ W.given world.old }
{
    match fault {
        OrNoMemory::Fault(SettingsFault::Device) => say_store(world),
        OrNoMemory::Fault(SettingsFault::Line(BadLine { line })) => {
            say_line(world, format!(in alloc; "virtd: configuration line {line}"));
        }
        OrNoMemory::NoMemory => say_out_of_memory(world),
    }
}

/// What a status file said: whose guest was running as the daemon before this one ended.
pub(crate) fn say_status<W: World>(alloc: Global, world: &mut W, status: &Option<Status>)
    ensures { W.given world.new ≡ W.given world.old }
{
    match status {
        Some(status) => {
            let name = status.name.as_str();
            let boot = status.boot;
            say_line(world, format!(in alloc; "was running {name} boot {boot}"));
        }
        None => world.say(b"was running ? boot ?"),
    }
}

/// How many statuses of boots the calls of a daemon could not keep, where some could not.
pub(crate) fn say_unkept<W: World>(alloc: Global, world: &mut W, unkept: u64)
    ensures { W.given world.new ≡ W.given world.old }
{
    if unkept > 0 {
        say_line(
            world,
            format!(in alloc; "virtd: statuses not kept: {unkept}"),
        );
    }
}

fn say_refusal<W: World>(alloc: Global, world: &mut W, name: &str, why: &Refusal)
    ensures { W.given world.new ≡ W.given world.old }
{
    let message = why.code.message();
    let kept = why.kept.as_str();
    if kept.is_empty() {
        say_line(
            world,
            format!(in alloc; "virtd: {name} is not started: {message}"),
        );
    } else {
        say_line(
            world,
            format!(in alloc; "virtd: {name} is not started: {message}: {kept}"),
        );
    }
}

/// What a request to start a domain came to, where it was refused.
pub(crate) fn say_start<W: World>(
    alloc: Global,
    world: &mut W,
    request: &Request,
    outcome: &Outcome,
)
    ensures { W.given world.new ≡ W.given world.old }
{
    if let Request::OnDomain { domain, request: _ } = request {
        if let Reply::No(why) = &outcome.reply {
            say_refusal(alloc, world, domain.name.as_str(), why);
        }
    }
}
