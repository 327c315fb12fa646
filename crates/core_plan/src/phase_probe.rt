// What the due phase would ask where these answers came.
ghost use Rattle.std.specs.Prelude.{◌≡◌, ◌++◌, ◌∷◌, [], IfOk, OnOk, drop, length};
ghost use Rattle.core_rules.specs.Next.{next_if};
ghost use Rattle.core_rules.specs.Place.{next_at, place_after, planned_at, undo_step};
ghost use Rattle.core_rules.specs.declared.course.Place.TheVariants as place;
ghost use Rattle.domain_spec.specs.Asks.{value_of};
ghost use Rattle.domain_spec.specs.PhaseAsks.{copied_bytes};
ghost use Rattle.core_plan.specs.Probing.{undo_behind};
ghost use Rattle.core_plan.specs.PhaseGoing.{phase_planned};
ghost use Rattle.core_plan.specs.PhaseProbing.{BringsNone};

use core_dispatch::next_phase;
use core_rules::Next;
use domain_spec::OpenOperation;
use std::alloc::Global;
use virt_types::{Answer, AnswerValue, Ask, ListOf, NoMemory, State};

// The ask that is next after these answers, none of which brings a copy.
#[tactic(auto, using(crate::proofs::PhaseProbing::next_planned))]
fn ask_after(
    alloc: Global,
    state: &State,
    operation: &OpenOperation,
    answers: &[Answer],
) -> Result<Option<Ask>, NoMemory>
    requires { BringsNone answers.now }
    ensures { IfOk result (λ ask. next_if ask ≡ next_at (phase_planned state.now operation.now) (place_after answers.now)) }
{
    match next_phase(alloc, state, operation, answers) {
        Ok(Next::Ask(ask)) => Ok(Some(ask)),
        Ok(Next::Finish) => Ok(None),
        Err(e) => Err(e),
    }
}

// One more answer without a value, after the others.
#[tactic(auto, using(crate::proofs::PhaseProbing::brings_more))]
fn put(answers: &mut Vec<Answer>, answer: Answer) -> Result<(), NoMemory>
    requires before { BringsNone answers.old.items }
    requires none { copied_bytes (value_of answer) ≡ [] }
    ensures answers { OnOk result (answers.new.items ≡ answers.old.items ++ answer ∷ []) }
    ensures brings { OnOk result (BringsNone answers.new.items) }
{
    match answers.push(answer) {
        Ok(()) => Ok(()),
        Err(full) => {
            drop(full);
            Err(NoMemory)
        }
    }
}

// So many answers Ok, without values.
#[tactic(auto, using(crate::proofs::Probing::first_place, crate::proofs::Probing::place_more))]
fn all_ok(alloc: Global, count: usize) -> Result<Vec<Answer>, NoMemory>
    ensures place { IfOk result (λ answers. place_after answers.items ≡ place.Plan count) }
    ensures brings { IfOk result (λ answers. BringsNone answers.items) }
{
    if count == 0 {
        return Ok(Vec::new(alloc));
    }
    match all_ok(alloc, count - 1) {
        Ok(answers) => {
            let mut answers = answers;
            put(&mut answers, Answer::Ok(AnswerValue::Nothing))?;
            Ok(answers)
        }
        Err(e) => Err(e),
    }
}

/// The ask at a place of the due phase's plan, if one is there.
pub fn ask_at(
    alloc: Global,
    state: &State,
    operation: &OpenOperation,
    place: usize,
) -> Result<Option<Ask>, NoMemory>
    ensures { IfOk result (λ ask. next_if ask ≡ next_if (planned_at (phase_planned state.now operation.now) place)) }
{
    match all_ok(alloc, place) {
        Ok(answers) => ask_after(alloc, state, operation, answers.as_slice()),
        Err(e) => Err(e),
    }
}

// The steps that are left of what undoes an ask, after the others.
fn put_undo(
    alloc: Global,
    state: &State,
    operation: &OpenOperation,
    of: usize,
    answers: &mut Vec<Answer>,
    undo: &mut ListOf<Ask>,
) -> Result<(), NoMemory>
    requires place { place_after answers.old.items ≡ place.Undo of (length undo.old) }
    requires brings { BringsNone answers.old.items }
    ensures { OnOk result (undo.new ≡ undo.old ++ drop (length undo.old) (undo_behind (phase_planned state.now operation.now) of)) }
{
    match ask_after(alloc, state, operation, answers.as_slice()) {
        Ok(None) => Ok(()),
        Ok(Some(ask)) => {
            undo.push(ask)?;
            put(answers, Answer::Ok(AnswerValue::Nothing))?;
            put_undo(alloc, state, operation, of, answers, undo)
        }
        Err(e) => Err(e),
    }
}

/// What undoes the ask at a place of the due phase's plan.
#[tactic(auto, using(crate::proofs::Probing::place_refused))]
pub fn undo_at(
    alloc: Global,
    state: &State,
    operation: &OpenOperation,
    place: usize,
) -> Result<ListOf<Ask>, NoMemory>
    ensures { IfOk result (λ undo. undo ≡ undo_behind (phase_planned state.now operation.now) place) }
{
    match all_ok(alloc, place) {
        Ok(answers) => {
            let mut answers = answers;
            put(&mut answers, Answer::NoMemory)?;
            let mut undo = ListOf::new(alloc);
            match put_undo(alloc, state, operation, place, &mut answers, &mut undo) {
                Ok(()) => Ok(undo),
                Err(e) => Err(e),
            }
        }
        Err(e) => Err(e),
    }
}
