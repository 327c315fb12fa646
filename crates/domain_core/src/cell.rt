// A domain's cell: a domain between two turns, with the link of its guest.
ghost use Rattle.std.specs.Prelude.{◌≡◌, IfOk, is_some, length};
ghost use Rattle.domain_spec.specs.Fold.{at_base};
ghost use Rattle.domain_spec.specs.Laws.{IsCounted};
ghost use Rattle.domain_spec.specs.Legal.{IsLegal};
ghost use Rattle.domain_spec.specs.Read.{read};
ghost use Rattle.core_steps.specs.Places.{last_place};
ghost use Rattle.domain_core.specs.Core.{is_occupied};
ghost use Rattle.domain_core.specs.Celled.{cell_in, new_cell, standing_in};
ghost use Rattle.domain_core.specs.Meaning.{history_of};
ghost use Rattle.domain_core.specs.Held.{IsOutWith};
ghost use Rattle.core_step_laws.specs.Steady.{IsSteady};
ghost use Rattle.core_owed.specs.Owing.{IsOwing};
ghost use Rattle.event_queue.specs.Listening.{has_client, registrations};

use crate::{DomainTurns, Here};
use core_steps::Chronicle;
use monitor_link::Guests;
use std::alloc::Global;
use std::marker::Model;
use virt_types::{DomainDef, Front, NoMemory, Query, Reply, State};

/// A domain between two turns, with the link of the guest that is there: each turn of a call, an operation, the guest
/// or a client is one step of it. The guest's monitor goes out with the ticket of the open call; its ears with a pass
/// that hears.
#[derive(Drop)]
pub struct DomainCell<G: Guests> {
    pub(crate) turns: DomainTurns,
    pub(crate) link: Option<Here<G>>,
    pub(crate) out: Option<u64>,
}

impl<G: Guests> Model for DomainCell<G> {
    ghost use Rattle.domain_core.specs.Celled.{Celled, IsCell};

    ghost Value = { Celled };

    ghost view = { λ c. record { core = c.turns; out = c.out; link = c.link } };

    ghost invariant = { λ c. IsCell c.turns.turning c.out c.link };
}

impl<G: Guests> DomainCell<G> {
    /// A domain as the store was opened: with this stored definition and its autostart, or vacant. Nobody waits
    /// or is registered.
    pub fn new(
        alloc: Global,
        stored: Option<DomainDef>,
        autostart: bool,
    ) -> Result<DomainCell<G>, NoMemory>
        ensures { IfOk result (λ c. c ≡ new_cell stored autostart) }
    {
        Ok(DomainCell {
            turns: DomainTurns::new(alloc, stored, autostart)?,
            link: None,
            out: None,
        })
    }

    /// The number of the chapter.
    pub fn chapter(&self) -> u64
        ensures { result ≡ self.now.core.turning.chapter }
    {
        self.turns.chapter()
    }

    /// How many marks the chapter has.
    pub fn len(&self) -> usize
        ensures { result ≡ length (cell_in self.now).marks }
    {
        self.turns.len()
    }

    /// The state of the domain.
    pub fn state(&self) -> &State
        ensures { result.now ≡ (standing_in self.now).state }
    {
        self.turns.state()
    }

    /// What a query reads of the domain, as its state has it.
    pub fn read(&self, alloc: Global, query: &Query) -> Result<Reply, NoMemory>
        ensures { IfOk result (λ it. it ≡ read (standing_in self.now).state query.now) }
    {
        self.turns.read(alloc, query)
    }

    /// Whether there is a domain, or an operation rests.
    pub fn occupied(&self) -> bool
        ensures { result ≡ is_occupied (standing_in self.now) }
    {
        self.turns.occupied()
    }

    /// Whether a normal job is open: a call, or a phase, waits for an answer.
    pub fn has_job(&self) -> bool
        ensures { result ≡ is_some (standing_in self.now).job }
    {
        self.turns.has_job()
    }

    /// The place of the chapter's last mark that is no boot's end, no guest's event and no cut; before all marks
    /// where there is none.
    pub fn last(&self) -> Front
        ensures chapter { result.chapter ≡ self.now.core.turning.chapter }
        ensures marks { result.marks ≡ last_place (cell_in self.now).marks }
    {
        self.turns.last()
    }

    /// The history of the chapter by itself, once nothing more happens: it is legal.
    pub fn into_history(self) -> Chronicle
        ensures history { result ≡ history_of self }
        ensures legal { IsLegal (at_base result.base) result.marks }
    {
        let DomainCell {
            turns,
            link: _,
            out: _,
        } = self;
        turns.into_history()
    }

    /// Whether this client is registered.
    pub fn has(&self, client: u32) -> bool
        ensures { result ≡ has_client self.now.core.turning.listeners client }
    {
        self.turns.has(client)
    }

    /// The history is legal and its boots are counted, what was asked stays what is asked, a monitor is out only while
    /// a call is open, and what pends for each listener, with what was taken, is what its history owes. It does
    /// nothing.
    pub fn holds(&self)
        ensures legal { IsLegal (at_base (cell_in self.now).base) (cell_in self.now).marks }
        ensures counted { IsCounted (at_base (cell_in self.now).base) }
        ensures steady { IsSteady (standing_in self.now) }
        ensures out { IsOutWith (standing_in self.now) self.now.out }
        ensures owed { IsOwing (cell_in self.now) }
        ensures listeners { (cell_in self.now).registrations ≡ registrations self.now.core.turning.listeners }
    {
        self.turns.listens();
        let _out = self.out;
    }
}
