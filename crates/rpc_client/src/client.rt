// A client, as its users see it.
ghost use Rattle.std.specs.Prelude.{◌≡◌, ◌≤◌, ◌+◌, IfOk, IfErr, IfSome, None, Err, length};
ghost use Rattle.procedure_spec.specs.Arguments.{HasArguments, arguments};
ghost use Rattle.wire_spec.specs.declared.message.TheConstants.{HEADER_LENGTH, MOST_BYTES};
ghost use Rattle.rpc_client.specs.Calling.{Answers, FailsOrNoMemory, fault_of, fresh};
ghost use Rattle.rpc_client.specs.Inflow.{is_there};
ghost use Rattle.rpc_client.specs.Notes.{GivesNoNote, GivesNote};

use crate::ends::Ends;
use crate::fault::ClientFault;
use crate::inlet::{Inlet, PIECE};
use packet::{Feed, Sink, Source};
use std::alloc::Global;
use std::collections::VecDeque;
use std::marker::Model;
use virt_types::{NoMemory, Note, OrNoMemory, Reply, Request};

/// The client's end of a connection: it sends one call after the other, each with the next number
/// from 1 on, and takes what comes as packets, however it is cut. Events that come meanwhile are kept in
/// order; every other packet that is no reply is passed over. After a fault, or where memory ran out,
/// the connection is over, and each call answers that again.
#[derive(Drop)]
pub struct Client<S, K> {
    ends: Ends<S, K>,
    fault: Option<OrNoMemory<ClientFault>>,
}

impl<S, K> Model for Client<S, K> {
    ghost use Rattle.rpc_client.specs.Calling.{Connection};
    ghost use Rattle.rpc_client.specs.Ends.{IsKept, linked};

    ghost Value = { Connection S K };

    ghost view = { λ c. linked c.ends c.fault };

    ghost invariant = { λ c. IsKept c.ends c.fault };
}

impl<S: Source, K: Sink> Client<S, K> {
    /// A client over these two ends, which nothing went over yet.
    pub fn new(alloc: Global, source: S, sink: K) -> Result<Client<S, K>, (S, K, NoMemory)>
        ensures ok { IfOk result (λ client. client ≡ fresh source sink) }
        ensures err { IfErr result (λ e. (e.0 ≡ source) × (e.1 ≡ sink)) }
    {
        match Feed::new(alloc) {
            Ok(feed) => Ok(Client {
                ends: Ends {
                    alloc,
                    inlet: Inlet {
                        source,
                        feed,
                        bad: None,
                        taken: 0,
                        events: VecDeque::new(alloc),
                        piece: [0; PIECE],
                    },
                    sink,
                    serial: 0,
                },
                fault: None,
            }),
            Err(NoMemory) => Err((source, sink, NoMemory)),
        }
    }

    /// Asks a request, and gives the answer that the reply to it spells.
    pub fn call(&mut self, request: &Request) -> Result<Reply, OrNoMemory<ClientFault>>
        requires arguments { HasArguments request.now }
        requires fits { HEADER_LENGTH + length (arguments request.now) ≤ MOST_BYTES }
        ensures ok { IfOk result (Answers S.left S.faults K.held K.faults request.now self.old self.new) }
        ensures err { self.old.fault ≡ None
            → IfErr result (FailsOrNoMemory S.left S.faults K.held K.faults request.now self.old self.new) }
        ensures again { IfSome self.old.fault (λ e. (result ≡ Err e) × (self.new ≡ self.old)) }
        ensures fault { self.new.fault ≡ fault_of result }
    {
        if let Some(fault) = self.fault {
            return Err(fault);
        }
        let answer = self.ends.ask(request);
        if let Err(fault) = &answer {
            self.fault = Some(*fault);
        }
        answer
    }

    /// The note of the next event, in the order in which they came. An event whose payload is no note is
    /// a fault, `BadPayload`.
    pub fn next_note(&mut self) -> Result<Note, OrNoMemory<ClientFault>>
        ensures ok { IfOk result (GivesNote S.left S.faults self.old self.new) }
        ensures err { self.old.fault ≡ None
            → IfErr result (GivesNoNote S.left S.faults self.old self.new) }
        ensures again { IfSome self.old.fault (λ e. (result ≡ Err e) × (self.new ≡ self.old)) }
        ensures fault { self.new.fault ≡ fault_of result }
    {
        if let Some(fault) = self.fault {
            return Err(fault);
        }
        let note = self.ends.next_note();
        if let Err(fault) = &note {
            self.fault = Some(*fault);
        }
        note
    }

    /// Whether an event has come whose note was not given yet.
    pub fn has_event(&self) -> bool
        ensures { result ≡ is_there self.now.inflow.events }
    {
        !self.ends.inlet.events.is_empty()
    }

    /// The two ends.
    pub fn close(self) -> (S, K)
        ensures source { result.0 ≡ self.inflow.source }
        ensures sink { result.1 ≡ self.sink }
    {
        let ends = self.ends;
        let inlet = ends.inlet;
        (inlet.source, ends.sink)
    }
}
