// One packet, and what is said to it.
ghost use Rattle.std.specs.Prelude.{◌≡◌, ◌<◌, ◌+◌, ◌^◌, IfErr, IfOk, OnOk, false};
ghost use Rattle.row_session.specs.Replying.{CanReply};
ghost use Rattle.row_session.specs.Steps.{HasSinkCause, IsPut, IsPutInPart, SaysOne, StopsOne, has_closed};
ghost use Rattle.service_spec.specs.Activities.{activity};
ghost use Rattle.service_spec.specs.Keepalive.{pong};
ghost use Rattle.session_spec.specs.Replies.{reply_packet};
ghost use Rattle.wire_spec.specs.declared.message.TheConstants.{CALL};

use crate::calls::{Calls, Runner};
use crate::pong::{is_ping, write_pong};
use crate::running::Told;
use crate::write::write;
use packet::{CALL, Packet, Sink, put_all};
use service_spec::Service;
use std::sync::Wait;
use virt_types::{Failed, Gate, NoMemory, Random};

/// Whether the session goes on.
#[derive(Clone, Copy, Debug, PartialEq, Eq)]
pub(crate) enum Flow {
    On,
    Closed,
}

/// Why a packet was not answered whole.
#[derive(Debug, Drop)]
pub(crate) enum Stop {
    SinkFault,
    NoMemory,
}

/// Where the gate is before a call is run.
const BEFORE: u32 = 1;

/// Where the gate is after its message was put.
const AFTER: u32 = 2;

fn flow_of(closes: bool) -> Flow
    ensures { has_closed result ≡ closes }
{
    if closes { Flow::Closed } else { Flow::On }
}

impl<'a, H: Wait, D: Service, T: Gate> Calls<'a, H, D, T> {
    // Puts the reply to a call.
    fn reply<K: Sink>(&self, call: &Packet, told: &Told, sink: &mut K) -> Result<Flow, Stop>
        requires { CanReply call.now.header told.now.said }
        ensures ok { OnOk result (IsPut (reply_packet call.now.header told.now.said) (K.held sink.old) (K.held sink.new)) }
        ensures flow { IfOk result (λ flow. has_closed flow ≡ told.now.closes) }
        ensures err { IfErr result (IsPutInPart (reply_packet call.now.header told.now.said) (K.held sink.old) (K.held sink.new)) }
        ensures cause { HasSinkCause (K.faults sink.old) (K.faults sink.new) result }
    {
        match write(self.alloc, &call.header, &told.said) {
            Ok(bytes) => match put_all(sink, bytes.as_slice()) {
                Ok(()) => {
                    self.gate.at(AFTER);
                    Ok(flow_of(told.closes))
                }
                Err(Failed) => Err(Stop::SinkFault),
            },
            Err(NoMemory) => Err(Stop::NoMemory),
        }
    }

    // Answers a PING.
    fn answer_ping<K: Sink>(&self, sink: &mut K) -> Result<Flow, Stop>
        ensures ok { OnOk result (IsPut pong (K.held sink.old) (K.held sink.new)) }
        ensures flow { IfOk result (λ flow. has_closed flow ≡ false) }
        ensures err { IfErr result (IsPutInPart pong (K.held sink.old) (K.held sink.new)) }
        ensures cause { HasSinkCause (K.faults sink.old) (K.faults sink.new) result }
    {
        match write_pong(self.alloc) {
            Ok(bytes) => match put_all(sink, bytes.as_slice()) {
                Ok(()) => Ok(Flow::On),
                Err(Failed) => Err(Stop::SinkFault),
            },
            Err(NoMemory) => Err(Stop::NoMemory),
        }
    }

    // Answers a call.
    fn answer<K: Sink, R: Random>(
        &self,
        runner: Runner<D::Row>,
        call: &Packet,
        sink: &mut K,
        random: &mut R,
    ) -> (Runner<D::Row>, Result<Flow, Stop>)
        requires ready { D.is_ready self.now.service.now runner.row }
        requires few { runner.next.count + 1 < 2 ^ 64 }
        requires call { call.now.header.kind ≡ CALL }
        ensures ok { IfOk result.1 (SaysOne D.is_served D.has_called call.now (activity runner.row (R.drawn random.old) runner.next) (K.held sink.old)
            (activity result.0.row (R.drawn random.new) result.0.next) (K.held sink.new)) }
        ensures err { IfErr result.1 (StopsOne D.is_served D.has_called call.now (activity runner.row (R.drawn random.old) runner.next) (K.held sink.old)
            (activity result.0.row (R.drawn random.new) result.0.next) (K.held sink.new)) }
        ensures cause { HasSinkCause (K.faults sink.old) (K.faults sink.new) result.1 }
        ensures still_ready { D.is_ready self.now.service.now result.0.row }
    {
        self.gate.at(BEFORE);
        let (runner, told) = self.run(runner, call, random);
        match told {
            Ok(told) => match self.reply(call, &told, sink) {
                Ok(flow) => (runner, Ok(flow)),
                Err(stop) => (runner, Err(stop)),
            },
            Err(NoMemory) => (runner, Err(Stop::NoMemory)),
        }
    }

    /// Says to a packet what is to be said to it: a reply to a call, a PONG to a PING, and nothing to any other.
    pub(crate) fn say<K: Sink, R: Random>(
        &self,
        runner: Runner<D::Row>,
        packet: &Packet,
        sink: &mut K,
        random: &mut R,
    ) -> (Runner<D::Row>, Result<Flow, Stop>)
        requires ready { D.is_ready self.now.service.now runner.row }
        requires few { runner.next.count + 1 < 2 ^ 64 }
        ensures ok { IfOk result.1 (SaysOne D.is_served D.has_called packet.now (activity runner.row (R.drawn random.old) runner.next) (K.held sink.old)
            (activity result.0.row (R.drawn random.new) result.0.next) (K.held sink.new)) }
        ensures err { IfErr result.1 (StopsOne D.is_served D.has_called packet.now (activity runner.row (R.drawn random.old) runner.next) (K.held sink.old)
            (activity result.0.row (R.drawn random.new) result.0.next) (K.held sink.new)) }
        ensures cause { HasSinkCause (K.faults sink.old) (K.faults sink.new) result.1 }
        ensures still_ready { D.is_ready self.now.service.now result.0.row }
    {
        if packet.header.kind == CALL {
            return self.answer(runner, packet, sink, random);
        }
        if is_ping(&packet.header) {
            return match self.answer_ping(sink) {
                Ok(flow) => (runner, Ok(flow)),
                Err(stop) => (runner, Err(stop)),
            };
        }
        (runner, Ok(Flow::On))
    }
}
