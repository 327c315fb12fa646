// Where the next ask is in a plan.
ghost use Rattle.std.specs.Prelude.{◌≡◌, ◌<◌, length};
ghost use Rattle.domain_spec.specs.Asks.{asks_left, first_bad, plain};
ghost use Rattle.core_rules.specs.Next.{at_most, next_of};
ghost use Rattle.core_rules.specs.Place.{next_at, place_after, place_behind};

use crate::answers::{first_bad, first_bad_at, is_undone};
use crate::next::Next;
use domain_spec::PlannedAsk;
use virt_types::{Answer, Ask};

/// Where the next ask is in a plan.
#[derive(Clone, Copy, Debug, PartialEq, Eq)]
pub enum Place {
    /// The planned ask at this place.
    Plan(usize),
    /// A step of what undoes a planned ask.
    Undo {
        /// The place of the ask that was not done.
        of: usize,
        /// The place of the step in its undo.
        step: usize,
    },
    /// Nowhere: after an answer that nothing follows.
    Through,
}

/// The place of the ask that is next after these answers, in every plan. So whoever makes asks needs
/// no more of a plan than the ask at one place.
#[tactic(auto, unfolding(crate::specs::Place::place_after))]
pub fn place_after(answers: &[Answer]) -> Place
    ensures { result ≡ place_after answers.now }
{
    match first_bad_at(answers) {
        None => Place::Plan(answers.len()),
        Some(of) => place_behind(answers, of),
    }
}

fn place_behind(answers: &[Answer], of: usize) -> Place
    requires { of < length answers.now }
    ensures { result ≡ place_behind (length answers.now) of (first_bad answers.now) }
{
    match first_bad(answers) {
        None => Place::Through,
        Some(bad) => {
            if is_undone(bad) {
                Place::Undo {
                    of,
                    step: answers.len() - (of + 1),
                }
            } else {
                Place::Through
            }
        }
    }
}

/// The ask that is next of those left of a plan is the one at that place.
#[tactic(auto, using(crate::proofs::NextAsk::next_is_at))]
pub fn next_is_at(plan: &[PlannedAsk], answers: &[Answer])
    ensures { next_of (asks_left plan.now answers.now) ≡ next_at plan.now (place_after answers.now) }
{}

/// What is next where one ask is planned, or none, and nothing undoes it.
#[tactic(auto, using(crate::proofs::Plans::next_of_plain))]
pub fn next_of_one(ask: Option<Ask>, answers: &[Answer]) -> Next
    ensures { result ≡ next_of (asks_left (plain (at_most ask)) answers.now) }
{
    match place_after(answers) {
        Place::Plan(0) => Next::of(ask),
        _ => {
            // Let go by a call: the proof meets no case of an ask then.
            drop(ask);
            Next::Finish
        }
    }
}
