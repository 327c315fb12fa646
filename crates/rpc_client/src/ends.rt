// The two ends of a connection: a call goes out, and the reply to it comes in.
ghost use Rattle.std.specs.Prelude.{◌≡◌, ◌≤◌, ◌+◌, IfOk, IfErr, OnOk, length};
ghost use Rattle.procedure_spec.specs.Arguments.{HasArguments, arguments};
ghost use Rattle.wire_spec.specs.declared.message.TheConstants.{HEADER_LENGTH, MOST_BYTES};
ghost use Rattle.rpc_client.specs.Calling as spec;
ghost use Rattle.rpc_client.specs.Ends.{Puts, PutsNone, used};
ghost use Rattle.rpc_client.specs.Inlets.{Stands};
ghost use Rattle.rpc_client.specs.Notes.{HasNone, Spells};

use crate::answer::answer_of;
use crate::fault::ClientFault;
use crate::inlet::Inlet;
use crate::note::note_of;
use packet::{Header, Sink, Source, WriteFault, put_all};
use remote_args::{call_words, write_call};
use std::alloc::Global;
use virt_types::{Failed, Note, OrNoMemory, Reply, Request};

/// The two ends of a connection.
#[derive(Drop)]
pub(crate) struct Ends<S, K> {
    pub(crate) alloc: Global,
    pub(crate) inlet: Inlet<S>,
    pub(crate) sink: K,
    /// The number of the last call.
    pub(crate) serial: u32,
}

impl<S: Source, K: Sink> Ends<S, K> {
    /// Puts the call that asks a request, with the next number.
    fn send(&mut self, request: &Request) -> Result<Header, OrNoMemory<ClientFault>>
        requires arguments { HasArguments request.now }
        requires fits { HEADER_LENGTH + length (arguments request.now) ≤ MOST_BYTES }
        ensures ok { IfOk result (Puts S.left S.faults K.held K.faults request.now (used self.old) (used self.new)) }
        ensures err { IfErr result (PutsNone S.left S.faults K.held K.faults request.now (used self.old) (used self.new)) }
        ensures inlet { self.new.inlet ≡ self.old.inlet }
    {
        if self.serial == u32::MAX {
            return Err(OrNoMemory::Fault(ClientFault::Spent));
        }
        self.serial += 1;
        match write_call(self.alloc, request, self.serial) {
            Ok(bytes) => match put_all(&mut self.sink, bytes.as_slice()) {
                Ok(()) => Ok(call_words(request, self.serial)),
                Err(Failed) => Err(OrNoMemory::Fault(ClientFault::Link)),
            },
            Err(OrNoMemory::Fault(WriteFault::TooBig { .. })) => unreachable!(),
            Err(OrNoMemory::NoMemory) => Err(OrNoMemory::NoMemory),
        }
    }

    /// Asks a request, and gives the answer that the reply to it spells.
    pub(crate) fn ask(&mut self, request: &Request) -> Result<Reply, OrNoMemory<ClientFault>>
        requires arguments { HasArguments request.now }
        requires fits { HEADER_LENGTH + length (arguments request.now) ≤ MOST_BYTES }
        requires stands { Stands self.old.inlet }
        ensures ok { IfOk result (spec.Answers S.left S.faults K.held K.faults request.now (used self.old) (used self.new)) }
        ensures err { IfErr result (spec.FailsOrNoMemory S.left S.faults K.held K.faults request.now (used self.old) (used self.new)) }
        ensures stands { OnOk result (Stands self.new.inlet) }
    {
        match self.send(request) {
            Ok(call) => match self.inlet.next_reply() {
                Ok(reply) => answer_of(self.alloc, request, &call, &reply),
                Err(fault) => Err(fault),
            },
            Err(fault) => Err(fault),
        }
    }

    /// The note of the oldest event that was not given yet.
    #[tactic(auto, using(crate::proofs::Noting::none_noted, crate::proofs::Noting::event_foreign))]
    pub(crate) fn next_note(&mut self) -> Result<Note, OrNoMemory<ClientFault>>
        requires { Stands self.old.inlet }
        ensures ok { IfOk result (Spells S.left S.faults (used self.old).inflow (used self.new).inflow) }
        ensures err { IfErr result (HasNone S.left S.faults self.old.serial (used self.old).inflow (used self.new).inflow) }
        ensures stands { OnOk result (Stands self.new.inlet) }
        ensures sink { self.new.sink ≡ self.old.sink }
        ensures serial { self.new.serial ≡ self.old.serial }
    {
        match self.inlet.next_event(self.serial) {
            Ok(event) => note_of(self.alloc, &event),
            Err(fault) => Err(fault),
        }
    }
}
