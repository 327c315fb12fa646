// Bytes on their way from the source to packets.
ghost use Rattle.std.specs.Prelude.{◌≡◌, ◌≤◌, ◌<◌, length, OnOk, IfOk, None};
ghost use Rattle.std.specs.Io.{ReadsAtMost};
ghost use Rattle.std.specs.Io.KnownBytes.{ReadConsumes};
ghost use Rattle.outside_spec.specs.Faults.{HasCause};
ghost use Rattle.packet.specs.Feeding.{Grows, IsSplit};
ghost use Rattle.row_session.specs.Steps.{end_at};
ghost use Rattle.wire_spec.specs.Packets.{fault};

use packet::{BadPacket, Feed, Source};
use session_spec::End;
use virt_types::{Failed, NoMemory, OrNoMemory};

/// Feeds a piece to a feed that has found no fault so far, and says whether it finds one now.
pub(crate) fn take_in(feed: &mut Feed, piece: &[u8]) -> Result<Option<BadPacket>, NoMemory>
    requires { fault feed.old.rest ≡ None }
    ensures grows { OnOk result (Grows feed.old piece.now feed.new) }
    ensures fault { IfOk result (λ bad. bad ≡ fault feed.new.rest) }
    ensures split { IsSplit feed.new }
{
    match feed.feed(piece) {
        Ok(()) => Ok(None),
        Err(OrNoMemory::Fault(bad)) => Ok(Some(bad)),
        Err(OrNoMemory::NoMemory) => Err(NoMemory),
    }
}

/// Takes bytes of a source into a front of the chunk, and at most so many.
pub(crate) fn take_within<S: Source>(
    source: &mut S,
    chunk: &mut [u8],
    most: u64,
) -> Result<usize, Failed>
    requires chunk { 0 < length chunk.old }
    requires most { 0 < most }
    ensures within { IfOk result (λ count. count ≤ most) }
    ensures bound { ReadsAtMost result chunk.new }
    ensures bytes { ReadConsumes (S.left source.old) (S.left source.new) result chunk.new }
    ensures cause { HasCause (S.faults source.old) (S.faults source.new) result }
{
    if most < chunk.len() as u64 {
        source.take(chunk.split_at_mut(most as usize).0)
    } else {
        source.take(chunk)
    }
}

/// The end of an input that is over.
pub(crate) fn end_of(feed: &Feed) -> End
    requires { fault feed.now.rest ≡ None }
    ensures { result ≡ end_at feed.now.rest }
{
    match feed.rest() {
        0 => End::Eof,
        rest => End::Truncated { rest },
    }
}
