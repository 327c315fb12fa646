// What the client is given of the outside.
ghost use Rattle.std.specs.Prelude.{◌≡◌};
ghost use Rattle.std.specs.Borrow.{Lends, sem};
ghost use Rattle.virsh.specs.Outside.{Dials, Outside, Reads, with_back, with_line, with_out};

use packet::{Sink, Source};
use virt_types::{Bytes, Failed, Fault, Text};

/// What the client is given of the outside: daemons, files, and the standard streams. It counts what it gave and got,
/// and knows the last of each.
pub trait Dial {
    /// Where replies come from.
    type S: Source + Drop;

    /// Where calls go to.
    type K: Sink + Drop;

    /// Standard output.
    type O: Sink;

    // What it gave and got.
    ghost given: { Self → Outside Self.S Self.K Self.O };

    // The same with this standard output.
    ghost with_output: { Self → Self.O → Self };

    /// A connection with the daemon at an address.
    fn dial(&mut self, address: &Text) -> Result<(Self::S, Self::K), Failed>
        ensures { Dials address.now (given self.old) (given self.new) result };

    /// Gets a connection back.
    fn ended(&mut self, source: Self::S, sink: Self::K)
        ensures { given self.new ≡ with_back (source, sink) (given self.old) };

    /// What a file has; of one that is longer than 65,536 bytes, a front that is longer than that.
    fn file(&mut self, name: &Text) -> Result<Bytes, Fault>
        ensures { Reads name.now (given self.old) (given self.new) result };

    /// Writes a line, which ends with a line feed, on standard error. Its faults are passed over.
    fn err(&mut self, line: &[u8])
        ensures { given self.new ≡ with_line line.now (given self.old) };

    /// Standard output.
    fn out(&mut self) -> &mut Self::O
        ensures* writes_back { sem 𝓛 (Lends Self.row Self.O.row self.entry result (with_output self.old)) }
        ensures value { result.now ≡ (given self.old).out };

    // Only that has changed.
    ghost output_given: { (s : Self) (out : Self.O) → given (with_output s out) ≡ with_out out (given s) };
}
