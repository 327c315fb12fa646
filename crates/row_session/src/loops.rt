// Pieces of the source are fed, and the packets that are whole are answered.
ghost use Rattle.std.specs.Prelude.{◌≡◌, ◌<◌, ◌≤◌, ◌+◌, ◌^◌, ◌++◌, [], length, IfErr, IfNone, IfOk, IfSome, None, Some};
ghost use Rattle.outside_spec.specs.Faults.{Rose};
ghost use Rattle.packet.specs.Feeding.{IsSplit, bytes_of};
ghost use Rattle.row_session.specs.Steps.{Flows, HasSinkCause, PieceDone, PieceEnds, Stopped};
ghost use Rattle.service_spec.specs.Activities.{activity};
ghost use Rattle.service_spec.specs.Course.{Course};
ghost use Rattle.wire_spec.specs.Packets.{fault};

use crate::calls::{Calls, Runner};
use crate::reading::{end_of, take_in, take_within};
use crate::say::{Flow, Stop};
use packet::{BadPacket, Feed, Sink, Source};
use service_spec::Service;
use session_spec::End;
use std::sync::Wait;
use virt_types::{Failed, Gate, NoMemory, Random};

/// The most bytes that are taken of one source.
const MOST: u64 = 1 << 62;

/// The most bytes that are taken of it at once.
const PIECE: usize = 8192;

impl<'a, H: Wait, D: Service, T: Gate> Calls<'a, H, D, T> {
    // Answers the packets that are ready, in order, and none after one that closes the session.
    fn serve_ready<K: Sink, R: Random>(
        &self,
        runner: Runner<D::Row>,
        feed: &mut Feed,
        sink: &mut K,
        random: &mut R,
    ) -> (Runner<D::Row>, Result<Flow, Stop>)
        requires ready { D.is_ready self.now.service.now runner.row }
        requires few { runner.next.count + length feed.old.ready < 2 ^ 64 }
        ensures ok { IfOk result.1 (Flows D.is_served D.has_called feed.old.ready feed.new.ready (activity runner.row (R.drawn random.old) runner.next) (K.held sink.old)
            (activity result.0.row (R.drawn random.new) result.0.next) (K.held sink.new)) }
        ensures rest { feed.new.rest ≡ feed.old.rest }
        ensures err { IfErr result.1 (Stopped D.is_served D.has_called feed.old.ready (activity runner.row (R.drawn random.old) runner.next) (K.held sink.old)
            (activity result.0.row (R.drawn random.new) result.0.next) (K.held sink.new)) }
        ensures cause { HasSinkCause (K.faults sink.old) (K.faults sink.new) result.1 }
        ensures still_ready { D.is_ready self.now.service.now result.0.row }
    {
        let mut runner = runner;
        while let Some(packet) = feed.next() {
            let (then, said) = self.say(runner, &packet, sink, random);
            match said {
                Ok(Flow::On) => runner = then,
                Ok(Flow::Closed) => return (then, Ok(Flow::Closed)),
                Err(stop) => return (then, Err(stop)),
            }
        }
        (runner, Ok(Flow::On))
    }

    // Answers the packets that are ready. The bytes after them have this fault.
    fn serve_taken<K: Sink, R: Random>(
        &self,
        runner: Runner<D::Row>,
        feed: &mut Feed,
        bad: Option<BadPacket>,
        sink: &mut K,
        random: &mut R,
    ) -> (Runner<D::Row>, Option<End>)
        requires ready { D.is_ready self.now.service.now runner.row }
        requires few { runner.next.count + length feed.old.ready < 2 ^ 64 }
        requires split { IsSplit feed.old }
        requires bad { bad ≡ fault feed.old.rest }
        ensures none { IfNone result.1 (PieceDone D.is_served D.has_called (bytes_of feed.old) feed.new.rest (activity runner.row (R.drawn random.old) runner.next) (K.held sink.old)
            (activity result.0.row (R.drawn random.new) result.0.next) (K.held sink.new)) }
        ensures ready { IfNone result.1 (feed.new.ready ≡ []) }
        ensures some { IfSome result.1 (PieceEnds D.is_served D.has_called (bytes_of feed.old) (activity runner.row (R.drawn random.old) runner.next) (K.held sink.old)
            (activity result.0.row (R.drawn random.new) result.0.next) (K.held sink.new)) }
        ensures later { K.faults sink.old ≤ K.faults sink.new }
        ensures cause { result.1 ≡ Some End.SinkFault → Rose (K.faults sink.old) (K.faults sink.new) }
        ensures still_ready { D.is_ready self.now.service.now result.0.row }
    {
        let (runner, served) = self.serve_ready(runner, feed, sink, random);
        match served {
            Ok(Flow::On) => match bad {
                Some(bad) => (runner, Some(End::BadPacket(bad))),
                None => (runner, None),
            },
            Ok(Flow::Closed) => (runner, Some(End::Closed)),
            Err(Stop::SinkFault) => (runner, Some(End::SinkFault)),
            Err(Stop::NoMemory) => (runner, Some(End::NoMemory)),
        }
    }

    // Takes a piece in, and answers the packets that are whole now. Where it gives an end the session is over.
    fn serve_piece<K: Sink, R: Random>(
        &self,
        runner: Runner<D::Row>,
        feed: &mut Feed,
        piece: &[u8],
        sink: &mut K,
        random: &mut R,
    ) -> (Runner<D::Row>, Option<End>)
        requires ready { D.is_ready self.now.service.now runner.row }
        requires few { runner.next.count + (length feed.old.rest + length piece.now) < 2 ^ 64 }
        requires none_ready { feed.old.ready ≡ [] }
        requires sound { fault feed.old.rest ≡ None }
        ensures none { IfNone result.1 (PieceDone D.is_served D.has_called (feed.old.rest ++ piece.now) feed.new.rest (activity runner.row (R.drawn random.old) runner.next) (K.held sink.old)
            (activity result.0.row (R.drawn random.new) result.0.next) (K.held sink.new)) }
        ensures ready { IfNone result.1 (feed.new.ready ≡ []) }
        ensures some { IfSome result.1 (PieceEnds D.is_served D.has_called (feed.old.rest ++ piece.now) (activity runner.row (R.drawn random.old) runner.next) (K.held sink.old)
            (activity result.0.row (R.drawn random.new) result.0.next) (K.held sink.new)) }
        ensures later { K.faults sink.old ≤ K.faults sink.new }
        ensures cause { result.1 ≡ Some End.SinkFault → Rose (K.faults sink.old) (K.faults sink.new) }
        ensures still_ready { D.is_ready self.now.service.now result.0.row }
    {
        match take_in(feed, piece) {
            Ok(bad) => self.serve_taken(runner, feed, bad, sink, random),
            Err(NoMemory) => (runner, Some(End::NoMemory)),
        }
    }

    // Serves piece by piece until the input is over, or the session.
    fn serve_pieces<S: Source, K: Sink, R: Random>(
        &self,
        runner: Runner<D::Row>,
        feed: &mut Feed,
        source: &mut S,
        sink: &mut K,
        random: &mut R,
    ) -> (Runner<D::Row>, End)
        requires ready { D.is_ready self.now.service.now runner.row }
        requires few { runner.next.count ≤ 2 ^ 62 }
        requires none_ready { feed.old.ready ≡ [] }
        requires rest { feed.old.rest ≡ [] }
        ensures course { Course D.is_served D.has_called (activity runner.row (R.drawn random.old) runner.next) (S.left source.old) (S.left source.new)
            (K.held sink.old) (K.held sink.new) result.1 (activity result.0.row (R.drawn random.new) result.0.next) }
        ensures source_count { S.faults source.old ≤ S.faults source.new }
        ensures sink_count { K.faults sink.old ≤ K.faults sink.new }
        ensures source_fault { result.1 ≡ End.SourceFault → Rose (S.faults source.old) (S.faults source.new) }
        ensures sink_fault { result.1 ≡ End.SinkFault → Rose (K.faults sink.old) (K.faults sink.new) }
        ensures still_ready { D.is_ready self.now.service.now result.0.row }
    {
        let mut runner = runner;
        let mut chunk = [0u8; PIECE];
        let mut taken = 0;
        while taken < MOST {
            let count = match take_within(source, &mut chunk, MOST - taken) {
                Ok(0) => return (runner, end_of(feed)),
                Ok(count) => count,
                Err(Failed) => return (runner, End::SourceFault),
            };
            let (then, end) = self.serve_piece(runner, feed, chunk.split_at(count).0, sink, random);
            match end {
                Some(end) => return (then, end),
                None => {
                    runner = then;
                    taken += count as u64;
                }
            }
        }
        (runner, end_of(feed))
    }

    /// Serves from the first byte on.
    pub(crate) fn serve_all<S: Source, K: Sink, R: Random>(
        &self,
        runner: Runner<D::Row>,
        source: &mut S,
        sink: &mut K,
        random: &mut R,
    ) -> (Runner<D::Row>, End)
        requires ready { D.is_ready self.now.service.now runner.row }
        requires few { runner.next.count ≤ 2 ^ 62 }
        ensures course { Course D.is_served D.has_called (activity runner.row (R.drawn random.old) runner.next) (S.left source.old) (S.left source.new)
            (K.held sink.old) (K.held sink.new) result.1 (activity result.0.row (R.drawn random.new) result.0.next) }
        ensures source_count { S.faults source.old ≤ S.faults source.new }
        ensures sink_count { K.faults sink.old ≤ K.faults sink.new }
        ensures source_fault { result.1 ≡ End.SourceFault → Rose (S.faults source.old) (S.faults source.new) }
        ensures sink_fault { result.1 ≡ End.SinkFault → Rose (K.faults sink.old) (K.faults sink.new) }
        ensures still_ready { D.is_ready self.now.service.now result.0.row }
    {
        match Feed::new(self.alloc) {
            Ok(mut feed) => self.serve_pieces(runner, &mut feed, source, sink, random),
            Err(NoMemory) => (runner, End::NoMemory),
        }
    }
}
