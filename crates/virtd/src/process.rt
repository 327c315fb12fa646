// The process as the world: its words, and its standard input, output and error. These few lines
// are trusted: no clause says what the system gives or takes.
ghost use Rattle.std.specs.Prelude.{◌≡◌, ◌⊎◌, ◌↔◌, IfOk, None, map};
ghost use Rattle.std.specs.String.{string_bytes};
ghost use Rattle.daemon_words.specs.Commands.{Asks};

use crate::connection::Connection;
use crate::handed::HandedOver;
use crate::status::{LINK, OUT_OF_MEMORY, USAGE};
use crate::world::World;
use daemon::Books;
use daemon_words::read_words;
use files_disk::{DirFiles, MemFiles};
use guest_model::SimGuests;
use packet::{Sink, Source};
use rand::make_rng;
use rand::rngs::StdRng;
use rand_core::{Rng, SeedableRng};
use std::env;
use std::io::{ErrorKind, Read, Write};
use std::marker::Brand;
use std::rt::{Stderr, Stdin, Stdout};
use std::sync::Wait;
use virt_types::{Failed, Fault, Gate, NoMemory, Random, Text};

/// Standard input, with the number of its faults. It reports no bytes.
#[derive(Drop)]
pub(crate) struct StandardInput {
    stream: Stdin,
    faults: u64,
}

impl Source for StandardInput {
    ghost use Rattle.std.specs.Prelude.{None};

    ghost left = { λ _. None };

    ghost faults = { λ s. s.faults };

    fn take(&mut self, into: &mut [u8]) -> Result<usize, Failed> {
        match self.stream.read(into) {
            Ok(count) => Ok(count),
            Err(_) => {
                self.faults = self.faults.saturating_add(1);
                Err(Failed)
            }
        }
    }
}

/// Standard output, with the number of its faults. It reports no bytes.
#[derive(Drop)]
pub(crate) struct StandardOutput {
    stream: Stdout,
    faults: u64,
}

impl Sink for StandardOutput {
    ghost use Rattle.std.specs.Prelude.{None};

    ghost held = { λ s. None };

    ghost faults = { λ s. s.faults };

    /// Where the system takes nothing of the piece, that is a fault too.
    fn put(&mut self, piece: &[u8]) -> Result<usize, Failed> {
        match self.stream.write(piece) {
            Ok(count) if count > 0 => Ok(count),
            _ => {
                self.faults = self.faults.saturating_add(1);
                Err(Failed)
            }
        }
    }
}

/// Words of a generator that begins with what the system gave.
#[derive(Drop)]
pub(crate) struct SystemWords {
    generator: StdRng,
}

impl SystemWords {
    /// A generator of its own, or a fault where the system gives nothing to begin with.
    pub(crate) fn new(rt: &HostRuntime) -> Result<SystemWords, Failed> {
        match make_rng(rt) {
            Ok(generator) => Ok(SystemWords { generator }),
            Err(_) => Err(Failed),
        }
    }
}

impl Random for SystemWords {
    ghost use Rattle.std.specs.Prelude.{None};

    ghost drawn = { λ _. None };

    fn word(&mut self) -> u64 {
        self.generator.next_u64()
    }

    fn another(&mut self) -> SystemWords {
        SystemWords {
            generator: StdRng::from_rng(&mut self.generator),
        }
    }
}

/// A place where no session is held up.
#[derive(Drop)]
pub(crate) struct Open;

impl Gate for Open {
    fn at(&self, _point: u32) {}
}

/// A connection of standard input and output.
type StandardConnection = Connection<StandardInput, StandardOutput, SystemWords>;

/// The process.
#[derive(Drop)]
pub(crate) struct Process<'a, H> {
    rt: &'a HostRuntime,
    waits: H,
    error: Stderr,
    words: SystemWords,
    made: HandedOver<StandardConnection>,
    back: HandedOver<StandardConnection>,
    opened: HandedOver<(Text, DirFiles)>,
    closed: HandedOver<DirFiles>,
    kept: HandedOver<Books>,
}

impl<'a, H> Process<'a, H> {
    /// The process, whose guests wait for their locks by this handle.
    pub(crate) fn new(rt: &'a HostRuntime, waits: H, words: SystemWords) -> Process<'a, H> {
        Process {
            rt,
            waits,
            error: rt.stderr(),
            words,
            made: HandedOver::none(),
            back: HandedOver::none(),
            opened: HandedOver::none(),
            closed: HandedOver::none(),
            kept: HandedOver::none(),
        }
    }
}

// The files of a directory, which is not looked at before the first call, and its path.
fn opened(rt: &HostRuntime, directory: &str) -> Result<(Text, DirFiles), NoMemory>
    ensures { IfOk result (λ opened. opened.0 ≡ directory.now) }
{
    let files = DirFiles::new(rt, directory)?;
    Ok((Text::copy_of(rt.alloc(), directory)?, files))
}

impl<'a, H: Wait + Copy + Send + Sync> World for Process<'a, H> {
    type S = StandardInput;

    type K = StandardOutput;

    type R = SystemWords;

    type F = DirFiles;

    type O = Brand;

    type G = SimGuests<H>;

    type T = Open;

    // That a directory can't be had is seen as its files are first asked for something, and counted there.
    ghost given = { λ p. record {
      made = p.made;
      back = p.back;
      opened = p.opened;
      closed = p.closed;
      kept = p.kept;
      faults = 0;
    } };

    fn connection(&mut self) -> StandardConnection {
        let connection = Connection {
            source: StandardInput {
                stream: self.rt.stdin(),
                faults: 0,
            },
            sink: StandardOutput {
                stream: self.rt.stdout(),
                faults: 0,
            },
            random: self.words.another(),
        };
        self.made.add(&connection);
        connection
    }

    fn ended(&mut self, source: StandardInput, sink: StandardOutput, random: SystemWords) {
        self.back.add(&Connection {
            source,
            sink,
            random,
        });
    }

    fn files(&mut self, directory: &str) -> Result<DirFiles, Fault> {
        match opened(self.rt, directory) {
            Ok(opened) => {
                self.opened.add(&opened);
                Ok(opened.1)
            }
            Err(NoMemory) => Err(Fault::NoMemory),
        }
    }

    fn closed(&mut self, files: DirFiles) {
        self.closed.add(&files);
    }

    fn memory(&mut self) -> MemFiles {
        MemFiles::new(self.rt.alloc())
    }

    fn guests(&mut self) -> SimGuests<H> {
        SimGuests::new(self.waits, self.rt.alloc())
    }

    fn gate(&mut self) -> Open {
        Open
    }

    fn kept(&mut self, books: Books) {
        self.kept.add(&books);
    }

    fn say(&mut self, line: &[u8]) {
        let _ = self.error.write_all(line);
        let _ = self.error.write_all(b"\n");
    }
}

/// The words after the program's name. Words that are no text are none, which is usage.
pub(crate) fn words(rt: &HostRuntime) -> Result<Vec<String>, NoMemory> {
    let mut words = Vec::new(rt.alloc());
    match env::args(rt) {
        Ok(args) => {
            for word in args.skip(1) {
                words.push(word)?;
            }
            Ok(words)
        }
        Err(error) if error.kind() == ErrorKind::OutOfMemory => Err(NoMemory),
        Err(_) => Ok(words),
    }
}

// Writes a line on standard error. Its faults are passed over.
fn say(rt: &HostRuntime, line: &[u8]) {
    let mut error = rt.stderr();
    let _ = error.write_all(line);
    let _ = error.write_all(b"\n");
}

/// Answers words where the system gives no seed: those of no command are still usage, and nothing is done.
pub(crate) fn without_seed(rt: &HostRuntime, words: &[String]) -> u8
    ensures usage { (result ≡ 2) ↔ Asks (map string_bytes words.now) None }
    ensures link { (result ≡ 2) ⊎ (result ≡ 5) }
{
    match read_words(words) {
        Some(_) => {
            say(rt, b"virtd: link");
            LINK
        }
        None => {
            say(rt, b"virtd: usage");
            USAGE
        }
    }
}

/// There was no memory for the words.
pub(crate) fn without_memory(rt: &HostRuntime) -> u8
    ensures { result ≡ 12 }
{
    say(rt, b"virtd: out of memory");
    OUT_OF_MEMORY
}
