// A directory of the system.
ghost use Rattle.std.specs.Prelude.{◌≡◌, ◌≤◌, IsErrOf, None, is_ok};
ghost use Rattle.outside_spec.specs.Faults.{HasCause, Rose};
ghost use Rattle.virt_types.specs.Below.types_base.declared.memory.Fault.TheVariants as fault;

use crate::files::Files;
use crate::paths::Paths;
use std::alloc::Global;
use std::io::{ErrorKind, Read, Write};
use std::{fs, io};
use virt_types::{Bytes, Failed, Fault, ListOf, NoMemory, Text, TextList};

/// The most bytes of a file that is read. A longer one is a fault.
pub const MOST_FILE_BYTES: usize = 1 << 20;

/// A directory of the system. It reports nothing but how often it failed.
#[derive(Drop)]
pub struct DirFiles {
    rt: HostRuntime,
    from: Paths,
    to: Paths,
    faults: u64,
}

impl DirFiles {
    /// The files of the directory with this path. It is not looked at before the first call.
    pub fn new(rt: &HostRuntime, directory: &str) -> Result<DirFiles, NoMemory> {
        let alloc = rt.alloc();
        Ok(DirFiles {
            rt: rt.clone()?,
            from: Paths::new(alloc, directory)?,
            to: Paths::new(alloc, directory)?,
            faults: 0,
        })
    }
}

fn fault_of(error: &io::Error) -> Fault {
    match error.kind() {
        ErrorKind::OutOfMemory => Fault::NoMemory,
        _ => Fault::Failed,
    }
}

// An answer as it is given, with a fault of the system counted.
fn counted<T: Drop>(faults: &mut u64, answer: Result<T, Fault>) -> Result<T, Fault>
    ensures same { result ≡ answer }
    ensures cause { IsErrOf result fault.Failed → Rose faults.old faults.new }
    ensures faults { faults.old ≤ faults.new }
{
    match answer {
        Ok(value) => Ok(value),
        Err(Fault::NoMemory) => Err(Fault::NoMemory),
        Err(Fault::Failed) => {
            *faults = faults.saturating_add(1);
            Err(Fault::Failed)
        }
    }
}

// The same of what takes no memory.
fn counted_done(faults: &mut u64, done: bool) -> Result<(), Failed>
    ensures done { is_ok result ≡ done }
    ensures cause { HasCause faults.old faults.new result }
{
    if done {
        return Ok(());
    }
    *faults = faults.saturating_add(1);
    Err(Failed)
}

fn list_path(rt: &HostRuntime, path: &str) -> Result<TextList, Fault> {
    let alloc = rt.alloc();
    let mut names = ListOf::new(alloc);
    let entries = match fs::read_dir(rt, path) {
        Ok(entries) => entries,
        Err(error) => return Err(fault_of(&error)),
    };
    for entry in entries {
        match entry {
            Ok(entry) => names.push(Text::copy_of(alloc, entry.file_name())?)?,
            // A name that is no text is none of the store's.
            Err(error) if error.kind() == ErrorKind::InvalidFilename => {}
            Err(error) => return Err(fault_of(&error)),
        }
    }
    Ok(names)
}

fn read_path(rt: &HostRuntime, path: &str) -> Result<Option<Bytes>, Fault> {
    let file = match fs::File::open(rt, path) {
        Ok(file) => file,
        Err(error) if error.kind() == ErrorKind::NotFound => return Ok(None),
        Err(error) => return Err(fault_of(&error)),
    };
    let mut bytes = Vec::new(rt.alloc());
    match file
        .take(MOST_FILE_BYTES as u64 + 1)
        .read_to_end(&mut bytes)
    {
        Ok(_) if bytes.len() <= MOST_FILE_BYTES => Ok(Some(Bytes::of(bytes))),
        Ok(_) => Err(Fault::Failed),
        Err(error) => Err(fault_of(&error)),
    }
}

fn write_path(rt: &HostRuntime, path: &str, content: &[u8]) -> Result<(), Fault> {
    match fs::File::create(rt, path) {
        Ok(mut file) => match file.write_all(content) {
            Ok(()) => Ok(()),
            Err(_) => Err(Fault::Failed),
        },
        Err(_) => Err(Fault::Failed),
    }
}

fn sync_path(rt: &HostRuntime, path: &str) -> bool {
    match fs::File::open(rt, path) {
        Ok(file) => file.sync_all().is_ok(),
        Err(_) => false,
    }
}

fn remove_path(rt: &HostRuntime, path: &str) -> bool {
    match fs::remove_file(rt, path) {
        Ok(()) => true,
        Err(error) => error.kind() == ErrorKind::NotFound,
    }
}

impl Files for DirFiles {
    ghost told = { λ _. None };

    ghost faults = { λ d. d.faults };

    fn list(&mut self) -> Result<TextList, Fault> {
        counted(&mut self.faults, list_path(&self.rt, self.from.directory()))
    }

    fn read(&mut self, name: &Text) -> Result<Option<Bytes>, Fault> {
        let read = match self.from.point_at(name) {
            Ok(()) => read_path(&self.rt, self.from.path()),
            Err(Failed) => Err(Fault::Failed),
        };
        counted(&mut self.faults, read)
    }

    fn write(&mut self, name: &Text, content: &[u8]) -> Result<(), Fault> {
        let written = match self.from.point_at(name) {
            Ok(()) => write_path(&self.rt, self.from.path(), content),
            Err(Failed) => Err(Fault::Failed),
        };
        counted(&mut self.faults, written)
    }

    fn sync(&mut self, name: &Text) -> Result<(), Failed> {
        let done = self.from.point_at(name).is_ok() && sync_path(&self.rt, self.from.path());
        counted_done(&mut self.faults, done)
    }

    fn rename(&mut self, from: &Text, to: &Text) -> Result<(), Fault> {
        let named = self.from.point_at(from).is_ok() && self.to.point_at(to).is_ok();
        let renamed = if named && fs::rename(&self.rt, self.from.path(), self.to.path()).is_ok() {
            Ok(())
        } else {
            Err(Fault::Failed)
        };
        counted(&mut self.faults, renamed)
    }

    fn remove(&mut self, name: &Text) -> Result<(), Failed> {
        let done = self.from.point_at(name).is_ok() && remove_path(&self.rt, self.from.path());
        counted_done(&mut self.faults, done)
    }

    fn sync_dir(&mut self) -> Result<(), Failed> {
        let done = sync_path(&self.rt, self.from.directory());
        counted_done(&mut self.faults, done)
    }
}
