// The top call: from the words to the status.
ghost use Rattle.std.specs.Prelude.{◌≡◌, ◌≢◌, ◌↔◌, ℕ, List, map};
ghost use Rattle.std.specs.String.{string_bytes};
ghost use Rattle.daemon_words.specs.Commands.{Demo, Stdio};
ghost use Rattle.def_keeper.specs.Opened.{IsSureAt};
ghost use Rattle.virtd.specs.Outside.{IsStarved, with_files};
ghost use Rattle.virtd.specs.Top.{ServesDemo, ServesDirectory, ServesOpened};
ghost use Rattle.virtd.specs.Words.{AsksFor, IsDaemon};

use crate::demo::{InMemory, define_request};
use crate::first::First;
use crate::say::{say_out_of_memory, say_settings, say_store, say_usage};
use crate::serving::{Served, serve_files};
use crate::status::{OUT_OF_MEMORY, STORE, USAGE, status_of_settings};
use crate::world::World;
use daemon_settings::load_settings;
use daemon_words::{DaemonCommand, read_words};
use files_disk::MemFiles;
use std::alloc::Global;
use std::sync::Wait;
use virt_types::{Fault, NoMemory};

// The words are those of no command.
fn usage<W: World>(world: &mut W) -> u8
    ensures code { result ≡ 2 }
    ensures given { W.given world.new ≡ W.given world.old }
{
    say_usage(world);
    USAGE
}

// There was no memory.
fn out_of_memory<W: World>(world: &mut W) -> u8
    ensures { IsStarved (W.given world.old) (W.given world.new) result }
{
    say_out_of_memory(world);
    OUT_OF_MEMORY
}

// `virtd demo`
fn serve_demo<H: Wait, W: World>(rt: &H, alloc: Global, world: &mut W) -> u8
    ensures code { result ≢ 2 }
    ensures serves { ServesDemo
        W.G.faults W.G.E.ends W.G.E.faults W.G.E.unheard
        W.S.left W.S.faults W.K.held W.K.faults W.R.drawn (W.given world.old) (W.given world.new) result }
{
    match define_request(alloc) {
        Ok(requests) => {
            let files = world.memory();
            let first = First::Make(requests);
            serve_files::<H, W, MemFiles, InMemory>(rt, alloc, world, files, first).status
        }
        Err(NoMemory) => out_of_memory(world),
    }
}

// Gives the files of a directory back, where they came back.
fn give_files<W: World>(world: &mut W, files: Option<W::F>)
    ensures { W.given world.new ≡ with_files files (W.given world.old) }
{
    if let Some(files) = files {
        world.closed(files);
    }
}

// Serves over these files of a directory, once their configuration was read.
fn serve_opened<H: Wait, W: World>(rt: &H, alloc: Global, world: &mut W, mut files: W::F) -> u8
    requires sound { W.O.sound → IsSureAt (W.F.told files) }
    ensures code { result ≢ 2 }
    ensures serves { ServesOpened W.F.told W.O.sound W.F.faults
        W.G.faults W.G.E.ends
        W.G.E.faults W.G.E.unheard W.S.left W.S.faults W.K.held W.K.faults W.R.drawn
        files (W.given world.old) (W.given world.new) result }
{
    match load_settings(alloc, &mut files) {
        Ok(_) => {
            let Served { status, files } = serve_files::<H, W, W::F, W::O>(
                rt,
                alloc,
                world,
                files,
                First::Start,
            );
            give_files(world, files);
            status
        }
        Err(fault) => {
            world.closed(files);
            say_settings(alloc, world, &fault);
            status_of_settings(&fault)
        }
    }
}

// `virtd stdio DIR`
fn serve_directory<H: Wait, W: World>(rt: &H, alloc: Global, world: &mut W, directory: &str) -> u8
    ensures code { result ≢ 2 }
    ensures serves { ServesDirectory W.F.told W.O.sound W.F.faults
        W.G.faults W.G.E.ends
        W.G.E.faults W.G.E.unheard W.S.left W.S.faults W.K.held W.K.faults W.R.drawn
        directory.now (W.given world.old) (W.given world.new) result }
{
    match world.files(directory) {
        Ok(files) => serve_opened(rt, alloc, world, files),
        Err(Fault::Failed) => {
            say_store(world);
            STORE
        }
        Err(Fault::NoMemory) => out_of_memory(world),
    }
}

/// Does what the words of the command line say, and answers the program's status: 0 where all is done, 2 for
/// the words of no daemon, 3 for a line of the configuration that is in no form, 4 where the files of the store
/// failed, 5 for a fault of standard input or output, 6 for a file of the store that is damaged, 7 for a bad packet,
/// 8 for an input that ends inside a packet, and 12 where memory runs out. Each but 0 has its line on standard error.
/// `demo` serves a store in memory that has one domain, and `stdio DIR` the store in a directory, of which it starts
/// the domains with autostart first.
pub fn virtd<H: Wait, W: World>(rt: &H, alloc: Global, words: &[String], world: &mut W) -> u8
    ensures usage { (result ≡ 2) ↔ (IsDaemon (map string_bytes words.now) → ⊥) }
    ensures nothing { result ≡ 2 → W.given world.new ≡ W.given world.old }
    ensures demo { AsksFor (map string_bytes words.now) Demo
        → ServesDemo
        W.G.faults W.G.E.ends W.G.E.faults W.G.E.unheard
        W.S.left W.S.faults W.K.held W.K.faults W.R.drawn (W.given world.old) (W.given world.new) result }
    ensures stdio { (directory : List ℕ) → AsksFor (map string_bytes words.now) (Stdio directory)
        → ServesDirectory W.F.told W.O.sound W.F.faults
        W.G.faults W.G.E.ends
        W.G.E.faults W.G.E.unheard W.S.left W.S.faults W.K.held W.K.faults W.R.drawn
        directory (W.given world.old) (W.given world.new) result }
{
    match read_words(words) {
        Some(DaemonCommand::Demo) => serve_demo(rt, alloc, world),
        Some(DaemonCommand::Stdio { directory }) => serve_directory(rt, alloc, world, directory),
        Some(DaemonCommand::Check { directory: _ }) => usage(world),
        Some(DaemonCommand::Words) => usage(world),
        None => usage(world),
    }
}
