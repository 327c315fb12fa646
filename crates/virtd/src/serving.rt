// One connection is served over the files of a store.
ghost use Rattle.std.specs.Prelude.{◌≡◌, ◌≢◌};
ghost use Rattle.def_keeper.specs.Opened.{IsSureAt};
ghost use Rattle.service_spec.specs.Activities.{hand};
ghost use Rattle.virtd.specs.First as spec;
ghost use Rattle.virtd.specs.Outside.{with_books};
ghost use Rattle.virtd.specs.Serving.{Begins, HasRun};
ghost use Rattle.virtd.specs.Top.{Connects, ServesFiles, files_of};

use crate::connection::Connection;
use crate::first::First;
use crate::say::{say_end, say_fault, say_start, say_status, say_unkept};
use crate::status::{status_of, status_of_fault};
use crate::world::World;
use daemon::{Closed, Daemon, End, Ended, Outcomes};
use def_keeper::Opening;
use files_disk::Files;
use std::alloc::Global;
use std::sync::Wait;
use virt_types::{NoMemory, Reply, Request};

/// The session of standard input and output.
const SESSION: u64 = 1;

/// The status of the program, and the files where they came back.
#[derive(Drop)]
pub(crate) struct Served<F> {
    pub(crate) status: u8,
    pub(crate) files: Option<F>,
}

// Says what the status files said.
fn say_statuses<W: World, F: Files + Drop, K: Opening>(
    alloc: Global,
    world: &mut W,
    daemon: &Daemon<F, K, W::G>,
)
    ensures { W.given world.new ≡ W.given world.old }
{
    for status in daemon.statuses().as_slice() {
        say_status(alloc, world, status);
    }
}

// Says which starts were refused.
fn say_starts<W: World>(alloc: Global, world: &mut W, requests: &[Request], outcomes: &Outcomes)
    ensures { W.given world.new ≡ W.given world.old }
{
    for (request, outcome) in requests.iter().zip(outcomes.as_slice()) {
        say_start(alloc, world, request, outcome);
    }
}

// Whether the reply says that it was done.
fn is_done(reply: &Reply) -> bool
    ensures { result ≡ spec.is_done reply.now }
{
    matches!(reply, Reply::Ok(_))
}

// Whether all of these were done.
fn all_done(outcomes: &Outcomes) -> bool
    ensures { result ≡ spec.all_done outcomes.now.items }
{
    outcomes.iter().all(|outcome| is_done(&outcome.reply))
}

// Gives the world what is left of a daemon, but for its files.
fn give_back<W: World, F: Drop>(
    alloc: Global,
    world: &mut W,
    closed: Option<Closed<F>>,
) -> Option<F>
    ensures given { W.given world.new ≡ with_books closed (W.given world.old) }
    ensures files { result ≡ files_of closed }
{
    match closed {
        Some(closed) => {
            let Closed {
                files,
                books,
                unkept,
            } = closed;
            say_unkept(alloc, world, unkept);
            world.kept(books);
            Some(files)
        }
        None => None,
    }
}

// Makes the first requests. Whether anybody is to be served then.
fn begin<H: Wait, W: World, F: Files + Drop, K: Opening>(
    rt: &H,
    alloc: Global,
    world: &mut W,
    daemon: Daemon<F, K, W::G>,
    first: First,
    random: &mut W::R,
) -> (Daemon<F, K, W::G>, bool)
    ensures begins { Begins F.told F.faults W.G.faults W.G.E.ends W.G.E.faults
        W.G.E.unheard first daemon.driver.starts (hand daemon.row (W.R.drawn random.old))
        (hand result.0.row (W.R.drawn random.new)) result.1 }
    ensures given { W.given world.new ≡ W.given world.old }
{
    match first {
        First::Start => {
            let (daemon, made) = daemon.start(rt, random);
            match made {
                Ok(outcomes) => {
                    say_starts(alloc, world, daemon.found().as_slice(), &outcomes);
                    (daemon, true)
                }
                Err(NoMemory) => (daemon, false),
            }
        }
        First::Make(requests) => {
            let (daemon, made) = daemon.make(rt, requests.as_slice(), random);
            match made {
                Ok(outcomes) => (daemon, all_done(&outcomes)),
                Err(NoMemory) => (daemon, false),
            }
        }
    }
}

// Makes the first requests with a daemon, serves a connection where it goes on, and closes it.
fn run<H: Wait, W: World, F: Files + Drop, K: Opening>(
    rt: &H,
    alloc: Global,
    world: &mut W,
    daemon: Daemon<F, K, W::G>,
    first: First,
    source: &mut W::S,
    sink: W::K,
    random: &mut W::R,
) -> Ended<F, W::K>
    ensures run { HasRun F.told K.sound F.faults W.G.faults W.G.E.ends W.G.E.faults
        W.G.E.unheard W.S.left W.S.faults W.K.held W.K.faults W.R.drawn first daemon.driver.starts daemon.row
        (record { source = source.old; sink = sink; random = random.old })
        (record { source = source.new; sink = result.sink; random = random.new }) result.end result.closed }
    ensures given { W.given world.new ≡ W.given world.old }
{
    let (daemon, goes_on) = begin(rt, alloc, world, daemon, first, random);
    if goes_on {
        let gate = world.gate();
        return daemon.serve(rt, SESSION, source, sink, random, &gate);
    }
    Ended {
        sink,
        end: End::NoMemory,
        closed: daemon.close(),
    }
}

// Serves standard input and output with a daemon, and closes it.
fn serve_daemon<H: Wait, W: World, F: Files + Drop, K: Opening>(
    rt: &H,
    alloc: Global,
    world: &mut W,
    daemon: Daemon<F, K, W::G>,
    first: First,
) -> Served<F>
    ensures code { result.status ≢ 2 }
    ensures connects { Connects F.told K.sound F.faults W.G.faults W.G.E.ends W.G.E.faults
        W.G.E.unheard W.S.left W.S.faults W.K.held W.K.faults W.R.drawn first daemon.driver.starts daemon.row
        (W.given world.old) (W.given world.new) result.status result.files }
{
    let Connection {
        mut source,
        sink,
        mut random,
    } = world.connection();
    let Ended { sink, end, closed } = run(
        rt,
        alloc,
        world,
        daemon,
        first,
        &mut source,
        sink,
        &mut random,
    );
    world.ended(source, sink, random);
    say_end(alloc, world, &end);
    let files = give_back(alloc, world, closed);
    Served {
        status: status_of(&end),
        files,
    }
}

/// Serves standard input and output over the files of a store.
pub(crate) fn serve_files<H: Wait, W: World, F: Files + Drop, K: Opening>(
    rt: &H,
    alloc: Global,
    world: &mut W,
    files: F,
    first: First,
) -> Served<F>
    requires sound { K.sound → IsSureAt (F.told files) }
    ensures code { result.status ≢ 2 }
    ensures serves { ServesFiles F.told K.sound F.faults
        W.G.faults W.G.E.ends W.G.E.faults
        W.G.E.unheard W.S.left W.S.faults W.K.held W.K.faults W.R.drawn first files
        (W.given world.old) (W.given world.new) result.status result.files }
{
    let guests = world.guests();
    match Daemon::<F, K, W::G>::open(alloc, files, guests) {
        Ok(daemon) => {
            say_statuses(alloc, world, &daemon);
            serve_daemon(rt, alloc, world, daemon, first)
        }
        Err((files, fault)) => {
            say_fault(alloc, world, &fault);
            Served {
                status: status_of_fault(&fault),
                files: Some(files),
            }
        }
    }
}
