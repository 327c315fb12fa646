// Paths of the files of one directory, made in room that was set aside.
ghost use Rattle.std.specs.Prelude.{◌≡◌, ◌++◌, IfOk, OnOk, codes};
ghost use Rattle.std.specs.String.{string_bytes};

use std::alloc::Global;
use virt_types::{Failed, NoMemory, Text};

// The longest name of a file, in bytes (NAME_MAX of Linux).
const MOST_NAME_BYTES: usize = 255;

/// A directory's path, and room for the path of a file in it.
#[derive(Drop)]
pub struct Paths {
    directory: String,
    path: String,
}

// Whether a file of a directory can have this name.
fn is_file_name(name: &str) -> bool {
    !name.is_empty()
        && name.len() <= MOST_NAME_BYTES
        && name != "."
        && name != ".."
        && !name.contains('/')
}

impl Paths {
    /// The paths of this directory's files.
    pub fn new(alloc: Global, directory: &str) -> Result<Paths, NoMemory>
        ensures { IfOk result (λ paths. string_bytes paths.directory ≡ directory.now) }
    {
        let mut path = String::new(alloc);
        path.reserve(directory.len().saturating_add(1 + MOST_NAME_BYTES))?;
        Ok(Paths {
            directory: String::from_str(alloc, directory)?,
            path,
        })
    }

    /// The directory's path.
    pub fn directory(&self) -> &str
        ensures { result.now ≡ string_bytes self.now.directory }
    {
        self.directory.as_str()
    }

    /// Makes the path of the file of this name, where a file can have it.
    pub fn point_at(&mut self, name: &Text) -> Result<(), Failed>
        ensures path { OnOk result (string_bytes self.new.path ≡ string_bytes self.old.directory ++ codes "/" ++ name.now) }
        ensures directory { self.new.directory ≡ self.old.directory }
    {
        if !is_file_name(name.as_str()) {
            return Err(Failed);
        }
        self.path.clear();
        let made = self.path.push_str(self.directory.as_str()).is_ok()
            && self.path.push_str("/").is_ok()
            && self.path.push_str(name.as_str()).is_ok();
        if made { Ok(()) } else { Err(Failed) }
    }

    /// The path that was made last.
    pub fn path(&self) -> &str
        ensures { result.now ≡ string_bytes self.now.path }
    {
        self.path.as_str()
    }
}
