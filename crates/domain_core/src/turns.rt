// A domain between two turns, and its turns.
ghost use Rattle.std.specs.Prelude.{◌≡◌, ◌≤◌, IfOk, None, Some, length};
ghost use Rattle.std.specs.Vec.{vec_capacity};
ghost use Rattle.domain_spec.specs.CanTake.{CanLook, CanTake};
ghost use Rattle.domain_spec.specs.Cell.{standing_of};
ghost use Rattle.domain_spec.specs.Read.{read};
ghost use Rattle.domain_spec.specs.Refusals.{bare};
ghost use Rattle.domain_spec.specs.Types.code;
ghost use Rattle.domain_spec.specs.Types.reply;
ghost use Rattle.domain_spec.specs.declared.core_step.CoreStep.TheVariants as step;
ghost use Rattle.domain_core.specs.Answering.{MayGoBack};
ghost use Rattle.domain_core.specs.Core.{excluded_by, is_occupied, new_core};
ghost use Rattle.core_step_laws.specs.Chapters.{history_at};
ghost use Rattle.core_steps.specs.OfLedger.{WaitsWith};
ghost use Rattle.core_steps.specs.OfRecord.{force_of};
ghost use Rattle.domain_spec.specs.Turns.{AllHaveRoom};
ghost use Rattle.event_queue.specs.Listening.{AreApart, registrations};
ghost use Rattle.core_steps.specs.Answering.{GoesBack, held_after};
ghost use Rattle.core_steps.specs.Looking.{IsKnownFirst, Looks};
ghost use Rattle.core_steps.specs.Refusing.{HasRefused};
ghost use Rattle.core_steps.specs.Turning.{Takes};
ghost use Rattle.core_step_laws.specs.Shares.{KeepsOthers};
ghost use Rattle.core_steps.specs.Places.{last_place};
ghost use Rattle.core_step_laws.specs.Queued.{queue_of};

use crate::looking::look_on;
use core_steps::{
    Back, Chronicle, HeldEvent, LentEars, Looked, OneRoom, Queue, Record, Refusable, back, give_up,
    last, operation_held, read, rooms_lent,
};
use domain_spec::First;
use history_spec::Stamp;
use std::alloc::Global;
use std::marker::Model;
use virt_types::{
    Answer, Call, DomainDef, Front, NoMemory, Query, Refusal, RefusalCode, Reply, State, Text, Who,
};

/// A domain between two turns: its history with its listeners, who waits for it, what its guest did while a call
/// was open, and whose ears are out. Each turn leaves what its step may leave, and what later turns need is there.
#[derive(Drop)]
pub struct DomainTurns {
    pub(crate) kept: Record,
    pub(crate) queue: Queue,
    pub(crate) held: Vec<HeldEvent>,
    pub(crate) rooms: Vec<OneRoom>,
    pub(crate) ears: Option<LentEars>,
    pub(crate) excluded: Option<Refusable>,
}

impl Model for DomainTurns {
    ghost use Rattle.std.specs.Vec.{vec_capacity, vec_len};
    ghost use Rattle.domain_core.specs.Core.{Core, IsWhole, core_of};

    ghost Value = { Core };

    ghost view = { λ t. core_of t.kept t.queue t.held.items t.ears t.excluded };

    ghost invariant = { λ t. IsWhole t.kept t.queue t.held.items t.ears t.excluded (vec_len t.rooms) (vec_capacity t.held) };
}

// Once a call, or a phase, is done nothing is held any more.
fn let_go(held: &mut Vec<HeldEvent>, left: &Back)
    ensures items { held.new.items ≡ held_after left.now held.old.items }
    ensures places { vec_capacity held.new ≡ vec_capacity held.old }
{
    match left {
        Back::Away(_) => {}
        _ => held.clear(),
    }
}

// What the type of a domain's history keeps, as clauses: no boot's end is left to be marked, a call is open exactly where
// one is away, each registration has room for all that comes for it, and no two are one client's. It does nothing.
pub(crate) fn facts(kept: &Record)
    ensures lost { (force_of kept.now).lost ≡ None }
    ensures waits { WaitsWith (force_of kept.now) (force_of kept.now).job kept.now.course }
    ensures room { AllHaveRoom (registrations kept.now.listeners) }
    ensures apart { AreApart kept.now.listeners }
{
    kept.is_away();
    kept.state();
    kept.has(0);
}

impl DomainTurns {
    /// A domain as the store was opened: with this stored definition and its autostart, or vacant. Nobody waits
    /// or is registered.
    #[tactic(auto, using(crate::proofs::Whole::new_whole))]
    pub fn new(
        alloc: Global,
        stored: Option<DomainDef>,
        autostart: bool,
    ) -> Result<DomainTurns, NoMemory>
        ensures { IfOk result (λ t. t ≡ new_core stored autostart) }
    {
        let kept = match Record::opened(alloc, stored, autostart) {
            Ok(kept) => kept,
            Err(e) => return Err(e),
        };
        Ok(DomainTurns {
            kept,
            queue: Queue::new(alloc)?,
            held: Vec::new(alloc),
            rooms: Vec::new(alloc),
            ears: None,
            excluded: None,
        })
    }

    /// A call looks: it is admitted, and is done at once or asks somebody; or it is excluded and waits; or it
    /// may not wait, since 32 others do. It neither begins an operation nor takes one up. Where there is no
    /// memory nothing is left of it.
    #[tactic(auto, using(crate::proofs::Parts::look_may, crate::proofs::Parts::look_goes, crate::proofs::Parts::lent_fits, crate::proofs::Whole::look_keeps))]
    pub fn look(&mut self, alloc: Global, by: Stamp, who: Who, call: &Call, first: First) -> Looked
        requires can { CanLook self.old.turning.cell by.number who call.now first }
        requires known { IsKnownFirst first self.old.turning.cell }
        ensures looks { Looks by.number who call.now first self.old.turning self.new.turning result }
        ensures queue { self.new.turning.cell.queue ≡ queue_of result self.old.turning.cell.queue by.number who }
        ensures others { KeepsOthers by.number self.old.turning.cell self.new.turning.cell }
        ensures excluded { self.new.excluded ≡ excluded_by who call.now result }
    {
        facts(&self.kept);
        let lent = rooms_lent(&self.ears);
        let looked = look_on(
            &mut self.kept,
            &mut self.queue,
            &mut self.rooms,
            &mut self.excluded,
            lent,
            alloc,
            by,
            who,
            call,
            first,
        );
        facts(&self.kept);
        looked
    }

    /// The ask that the open call, or the phase, made last is answered so: it is done, and then the held events
    /// apply, or it asks on. It takes no memory but for the next ask.
    pub fn back(&mut self, by: Stamp, answer: Answer) -> Back
        requires can { CanTake self.old.turning.cell (step.Back by.number answer) }
        requires may { MayGoBack self.old.turning.cell answer }
        ensures back { GoesBack by.number answer self.old.turning self.new.turning result }
        ensures others { KeepsOthers by.number self.old.turning.cell self.new.turning.cell }
        ensures excluded { self.new.excluded ≡ None }
    {
        facts(&self.kept);
        self.excluded = None;
        let left = back(
            &mut self.kept,
            &mut self.rooms,
            self.held.as_slice(),
            by,
            answer,
        );
        facts(&self.kept);
        let_go(&mut self.held, &left);
        left
    }

    /// The call that the turn before found excluded looked often enough: it is refused, and waits no more. It
    /// takes no memory.
    #[tactic(auto, using(crate::proofs::Parts::give_goes, crate::proofs::Whole::given_keeps))]
    pub fn give_up(&mut self, alloc: Global, by: Stamp, who: Who, call: &Call) -> Reply
        requires can { CanTake self.old.turning.cell (step.GiveUp by.number who call.now) }
        requires excluded { self.old.excluded ≡ Some (record { who = who; call = call.now }) }
        ensures given_up { Takes self.old.turning self.new.turning (step.GiveUp by.number who call.now) (HasRefused by.number who call.now code.OperationTimeout) }
        ensures reply { result ≡ reply.No (bare code.OperationTimeout) }
        ensures others { KeepsOthers by.number self.old.turning.cell self.new.turning.cell }
        ensures excluded { self.new.excluded ≡ None }
    {
        facts(&self.kept);
        match self.excluded.take() {
            Some(refusable) => give_up(&mut self.kept, &mut self.queue, by, refusable),
            None => unreachable!(),
        }
        facts(&self.kept);
        Reply::No(Refusal {
            code: RefusalCode::OperationTimeout,
            kept: Text::of(String::new(alloc)),
        })
    }

    /// The number of the chapter.
    pub fn chapter(&self) -> u64
        ensures { result ≡ self.now.turning.chapter }
    {
        self.kept.chapter()
    }

    /// How many marks the chapter has.
    pub fn len(&self) -> usize
        ensures { result ≡ length self.now.turning.cell.marks }
    {
        self.kept.len()
    }

    /// The history of the chapter by itself, once nothing more happens.
    pub fn into_history(self) -> Chronicle
        ensures { result ≡ history_at self.turning.chapter self.turning.cell }
    {
        self.kept.into_history()
    }

    /// The place of the chapter's last mark that is no boot's end, no guest's event and no cut; before all marks
    /// where there is none.
    pub fn last(&self) -> Front
        ensures chapter { result.chapter ≡ self.now.turning.chapter }
        ensures marks { result.marks ≡ last_place self.now.turning.cell.marks }
    {
        last(&self.kept)
    }

    /// The state of the domain.
    pub fn state(&self) -> &State
        ensures { result.now ≡ (standing_of self.now.turning.cell).state }
    {
        self.kept.state()
    }

    /// What a query reads of the domain, as its state has it.
    pub fn read(&self, alloc: Global, query: &Query) -> Result<Reply, NoMemory>
        ensures { IfOk result (λ it. it ≡ read (standing_of self.now.turning.cell).state query.now) }
    {
        read(alloc, self.kept.state(), query)
    }

    /// Whether there is a domain, or an operation rests.
    pub fn occupied(&self) -> bool
        ensures { result ≡ is_occupied (standing_of self.now.turning.cell) }
    {
        match self.kept.state() {
            State::Held(_) => true,
            State::Vacant { .. } => match operation_held(self.kept.operation()) {
                Some(operation) => operation.rests,
                None => false,
            },
        }
    }
}
