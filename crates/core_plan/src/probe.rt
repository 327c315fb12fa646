// What a call would ask where these answers came.
ghost use Rattle.std.specs.Prelude.{◌≡◌, ◌++◌, ◌∷◌, [], IfOk, OnOk, drop, length};
ghost use Rattle.core_rules.specs.Next.{next_if};
ghost use Rattle.core_rules.specs.Place.{next_at, place_after, planned_at, undo_step};
ghost use Rattle.core_rules.specs.declared.course.Place.TheVariants as place;
ghost use Rattle.core_mark_laws.specs.Tidy.{planned};
ghost use Rattle.core_plan.specs.Probing.{undo_behind};

use core_dispatch::next;
use core_rules::Next;
use std::alloc::Global;
use virt_types::{Answer, AnswerValue, Ask, Call, ListOf, NoMemory, State};

// The ask that is next after these answers, if one is.
#[tactic(auto, using(crate::proofs::Probing::next_planned))]
fn ask_after(
    alloc: Global,
    state: &State,
    call: &Call,
    boot: Option<u64>,
    answers: &[Answer],
) -> Result<Option<Ask>, NoMemory>
    ensures { IfOk result (λ ask. next_if ask ≡ next_at (planned state.now call.now boot) (place_after answers.now)) }
{
    match next(alloc, state, call, boot, answers) {
        Ok(Next::Ask(ask)) => Ok(Some(ask)),
        Ok(Next::Finish) => Ok(None),
        Err(e) => Err(e),
    }
}

// One more answer, after the others.
fn put(answers: &mut Vec<Answer>, answer: Answer) -> Result<(), NoMemory>
    ensures { OnOk result (answers.new.items ≡ answers.old.items ++ answer ∷ []) }
{
    match answers.push(answer) {
        Ok(()) => Ok(()),
        Err(full) => {
            drop(full);
            Err(NoMemory)
        }
    }
}

// So many answers Ok.
#[tactic(auto, using(crate::proofs::Probing::first_place, crate::proofs::Probing::place_more))]
fn all_ok(alloc: Global, count: usize) -> Result<Vec<Answer>, NoMemory>
    ensures { IfOk result (λ answers. place_after answers.items ≡ place.Plan count) }
{
    if count == 0 {
        return Ok(Vec::new(alloc));
    }
    match all_ok(alloc, count - 1) {
        Ok(answers) => {
            let mut answers = answers;
            put(&mut answers, Answer::Ok(AnswerValue::Nothing))?;
            Ok(answers)
        }
        Err(e) => Err(e),
    }
}

/// The ask at a place of a call's plan, if one is there.
pub fn ask_at(
    alloc: Global,
    state: &State,
    call: &Call,
    boot: Option<u64>,
    place: usize,
) -> Result<Option<Ask>, NoMemory>
    ensures { IfOk result (λ ask. next_if ask ≡ next_if (planned_at (planned state.now call.now boot) place)) }
{
    match all_ok(alloc, place) {
        Ok(answers) => ask_after(alloc, state, call, boot, answers.as_slice()),
        Err(e) => Err(e),
    }
}

// The steps that are left of what undoes an ask, after the others.
fn put_undo(
    alloc: Global,
    state: &State,
    call: &Call,
    boot: Option<u64>,
    of: usize,
    answers: &mut Vec<Answer>,
    undo: &mut ListOf<Ask>,
) -> Result<(), NoMemory>
    requires { place_after answers.old.items ≡ place.Undo of (length undo.old) }
    ensures { OnOk result (undo.new ≡ undo.old ++ drop (length undo.old) (undo_behind (planned state.now call.now boot) of)) }
{
    match ask_after(alloc, state, call, boot, answers.as_slice()) {
        Ok(None) => Ok(()),
        Ok(Some(ask)) => {
            undo.push(ask)?;
            put(answers, Answer::Ok(AnswerValue::Nothing))?;
            put_undo(alloc, state, call, boot, of, answers, undo)
        }
        Err(e) => Err(e),
    }
}

/// What undoes the ask at a place of a call's plan.
#[tactic(auto, using(crate::proofs::Probing::place_refused))]
pub fn undo_at(
    alloc: Global,
    state: &State,
    call: &Call,
    boot: Option<u64>,
    place: usize,
) -> Result<ListOf<Ask>, NoMemory>
    ensures { IfOk result (λ undo. undo ≡ undo_behind (planned state.now call.now boot) place) }
{
    match all_ok(alloc, place) {
        Ok(answers) => {
            let mut answers = answers;
            put(&mut answers, Answer::NoMemory)?;
            let mut undo = ListOf::new(alloc);
            match put_undo(alloc, state, call, boot, place, &mut answers, &mut undo) {
                Ok(()) => Ok(undo),
                Err(e) => Err(e),
            }
        }
        Err(e) => Err(e),
    }
}
