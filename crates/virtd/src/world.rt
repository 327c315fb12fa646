// What the program is given of the outside.
ghost use Rattle.std.specs.Prelude.{◌≡◌};
ghost use Rattle.files_disk.specs.Memory.{no_files};
ghost use Rattle.virtd.specs.Outside.{Gives, Outside, with_back, with_closed, with_kept, with_made};
ghost use Rattle.virtd.specs.declared.connection.Connection.{Connection as ConnectionOf};

use crate::connection::Connection;
use daemon::Books;
use def_keeper::Opening;
use files_disk::{Files, MemFiles};
use monitor_link::Guests;
use packet::{Sink, Source};
use virt_types::{Fault, Gate, Random};

/// What the program is given of the outside. It counts what it made and what it got back, and knows the
/// last of each.
pub trait World {
    /// Where calls come from.
    type S: Source;

    /// Where replies go to.
    type K: Sink;

    /// Where new identifiers and addresses come from.
    type R: Random + Drop;

    /// The files of a directory.
    type F: Files + Drop;

    /// What is taken for true of them.
    type O: Opening;

    /// What makes guests, whose links may go to other threads.
    type G: Guests<M: Send, E: Send, Z: Send> + Drop;

    /// Where a session may be held up.
    type T: Gate + Drop;

    // What was handed out, and what came back.
    ghost given: { Self → Outside (ConnectionOf Self.S Self.K Self.R) Self.F };

    /// Makes a connection of standard input and output.
    fn connection(&mut self) -> Connection<Self::S, Self::K, Self::R>
        ensures { given self.new ≡ with_made result (given self.old) };

    /// Gets a connection back.
    fn ended(&mut self, source: Self::S, sink: Self::K, random: Self::R)
        ensures { given self.new ≡ with_back (record { source = source; sink = sink; random = random }) (given self.old) };

    /// The files of the directory with this path. Where they report what is done to them, the definitions'
    /// files are synced.
    fn files(&mut self, directory: &str) -> Result<Self::F, Fault>
        ensures { Gives Self.F.told Self.O.sound directory.now (given self.old) (given self.new) result };

    /// Gets files back.
    fn closed(&mut self, files: Self::F)
        ensures { given self.new ≡ with_closed files (given self.old) };

    /// Gets the histories of a daemon that was closed.
    fn kept(&mut self, books: Books)
        ensures { given self.new ≡ with_kept books (given self.old) };

    /// Files in memory, of which there are none yet.
    fn memory(&mut self) -> MemFiles
        ensures none { result ≡ no_files }
        ensures same { given self.new ≡ given self.old };

    /// A maker of guests.
    fn guests(&mut self) -> Self::G
        ensures { given self.new ≡ given self.old };

    /// A place where a session may be held up.
    fn gate(&mut self) -> Self::T
        ensures { given self.new ≡ given self.old };

    /// Writes a line for a person on standard error. Its faults are passed over.
    fn say(&mut self, line: &[u8])
        ensures { given self.new ≡ given self.old };
}
