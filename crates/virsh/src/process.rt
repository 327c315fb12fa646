// The process as the outside: TCP, files, its words, and its standard output and error. These few lines are trusted: no
// clause says what the system gives or takes.
ghost use Rattle.std.specs.Prelude.{◌≡◌, refl};

use crate::dial::Dial;
use crate::handed::{HandedOver, SaidLines};
use crate::status::OUT_OF_MEMORY;
use packet::{Sink, Source};
use std::io::{ErrorKind, Read, Write};
use std::net::TcpStream;
use std::rt::{Stderr, Stdout};
use std::{env, fs, io};
use virt_types::{Bytes, Failed, Fault, MOST_TEXT_BYTES, NoMemory, Text};

/// Where replies come from, with the number of its faults. It reports no bytes.
#[derive(Drop)]
pub(crate) struct Replies {
    stream: TcpStream,
    faults: u64,
}

impl Source for Replies {
    ghost use Rattle.std.specs.Prelude.{None};

    ghost left = { λ _. None };

    ghost faults = { λ s. s.faults };

    fn take(&mut self, into: &mut [u8]) -> Result<usize, Failed> {
        match self.stream.read(into) {
            Ok(count) => Ok(count),
            Err(_) => {
                self.faults = self.faults.saturating_add(1);
                Err(Failed)
            }
        }
    }
}

/// Where calls go to, with the number of its faults. It reports no bytes.
#[derive(Drop)]
pub(crate) struct Calls {
    stream: TcpStream,
    faults: u64,
}

impl Sink for Calls {
    ghost use Rattle.std.specs.Prelude.{None};

    ghost held = { λ s. None };

    ghost faults = { λ s. s.faults };

    /// Where the system takes nothing of the piece, that is a fault too.
    fn put(&mut self, piece: &[u8]) -> Result<usize, Failed> {
        match self.stream.write(piece) {
            Ok(count) if count > 0 => Ok(count),
            _ => {
                self.faults = self.faults.saturating_add(1);
                Err(Failed)
            }
        }
    }
}

/// Standard output, with the number of its faults. It reports no bytes.
#[derive(Drop)]
pub(crate) struct StandardOutput {
    stream: Stdout,
    faults: u64,
}

impl Sink for StandardOutput {
    ghost use Rattle.std.specs.Prelude.{None};

    ghost held = { λ s. None };

    ghost faults = { λ s. s.faults };

    /// Where the system takes nothing of the piece, that is a fault too.
    fn put(&mut self, piece: &[u8]) -> Result<usize, Failed> {
        match self.stream.write(piece) {
            Ok(count) if count > 0 => Ok(count),
            _ => {
                self.faults = self.faults.saturating_add(1);
                Err(Failed)
            }
        }
    }
}

/// The process.
#[derive(Drop)]
pub(crate) struct Process<'a> {
    rt: &'a HostRuntime,
    error: Stderr,
    out: StandardOutput,
    addresses: HandedOver<Text>,
    made: HandedOver<(Replies, Calls)>,
    back: HandedOver<(Replies, Calls)>,
    names: HandedOver<Text>,
    contents: HandedOver<Bytes>,
    made_before: u64,
    lines: SaidLines,
    dial_faults: u64,
    file_faults: u64,
}

impl<'a> Process<'a> {
    /// The process, which has done nothing yet.
    pub(crate) fn new(rt: &'a HostRuntime) -> Process<'a> {
        Process {
            rt,
            error: rt.stderr(),
            out: StandardOutput {
                stream: rt.stdout(),
                faults: 0,
            },
            addresses: HandedOver::none(),
            made: HandedOver::none(),
            back: HandedOver::none(),
            names: HandedOver::none(),
            contents: HandedOver::none(),
            made_before: 0,
            lines: SaidLines::none(),
            dial_faults: 0,
            file_faults: 0,
        }
    }
}

// Both ends of a connection with whoever listens at an address.
fn connected(rt: &HostRuntime, address: &str) -> io::Result<(Replies, Calls)> {
    let stream = TcpStream::connect(rt, address)?;
    let other = stream.try_clone()?;
    Ok((
        Replies { stream, faults: 0 },
        Calls {
            stream: other,
            faults: 0,
        },
    ))
}

// The content of a file, or a front of it that is longer than any text that may be sent.
fn content_of(rt: &HostRuntime, name: &str) -> Result<Bytes, Fault> {
    let file = match fs::File::open(rt, name) {
        Ok(file) => file,
        Err(error) => return Err(fault_of(&error)),
    };
    let mut bytes = Vec::new(rt.alloc());
    match file
        .take(MOST_TEXT_BYTES as u64 + 1)
        .read_to_end(&mut bytes)
    {
        Ok(_) => Ok(Bytes::of(bytes)),
        Err(error) => Err(fault_of(&error)),
    }
}

fn fault_of(error: &io::Error) -> Fault {
    if error.kind() == ErrorKind::OutOfMemory {
        Fault::NoMemory
    } else {
        Fault::Failed
    }
}

impl Dial for Process<'_> {
    type S = Replies;

    type K = Calls;

    type O = StandardOutput;

    ghost given = { λ p. record {
      addresses = p.addresses;
      made = p.made;
      back = p.back;
      names = p.names;
      contents = p.contents;
      made_before = p.made_before;
      out = p.out;
      lines = p.lines;
      dial_faults = p.dial_faults;
      file_faults = p.file_faults;
    } };

    ghost with_output = { λ p out. record p { out = out } };

    fn dial(&mut self, address: &Text) -> Result<(Replies, Calls), Failed> {
        match connected(self.rt, address.as_str()) {
            Ok(ends) => {
                self.addresses.add(address);
                self.made.add(&ends);
                Ok(ends)
            }
            Err(_) => {
                self.dial_faults = self.dial_faults.saturating_add(1);
                Err(Failed)
            }
        }
    }

    fn ended(&mut self, source: Replies, sink: Calls) {
        self.back.add(&(source, sink));
    }

    fn file(&mut self, name: &Text) -> Result<Bytes, Fault> {
        match content_of(self.rt, name.as_str()) {
            Ok(content) => {
                self.names.add(name);
                self.contents.add(&content);
                self.made_before = self.made.count();
                Ok(content)
            }
            Err(Fault::Failed) => {
                self.file_faults = self.file_faults.saturating_add(1);
                Err(Fault::Failed)
            }
            Err(Fault::NoMemory) => Err(Fault::NoMemory),
        }
    }

    fn err(&mut self, line: &[u8]) {
        self.lines.add(line);
        let _ = self.error.write_all(line);
    }

    fn out(&mut self) -> &mut StandardOutput {
        &mut self.out
    }

    ghost output_given = { λ p out. refl };
}

/// The words after the program's name. Words that are no text are none, which is usage.
pub(crate) fn words(rt: &HostRuntime) -> Result<Vec<String>, NoMemory> {
    let mut words = Vec::new(rt.alloc());
    match env::args(rt) {
        Ok(args) => {
            for word in args.skip(1) {
                words.push(word)?;
            }
            Ok(words)
        }
        Err(error) if error.kind() == ErrorKind::OutOfMemory => Err(NoMemory),
        Err(_) => Ok(words),
    }
}

/// There was no memory for the words.
pub(crate) fn without_memory(rt: &HostRuntime) -> u8
    ensures { result ≡ 12 }
{
    let mut error = rt.stderr();
    let _ = error.write_all(b"virsh: out of memory\n");
    OUT_OF_MEMORY
}
