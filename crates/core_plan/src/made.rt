// The asks that were made, moved out of a plan.
ghost use Rattle.std.specs.Prelude.{◌≡◌, ◌++◌, ◌+◌, ◌≤◌, length, take};
ghost use Rattle.std.specs.Vec.{vec_capacity, vec_len};
ghost use Rattle.core_plan.specs.Along.{made_along, most_asks};

use core_rules::{is_ok_answer, is_undone};
use domain_spec::PlannedAsk;
use std::collections::VecDeque;
use virt_types::{Answer, Ask, AskList};

// The first so many asks of an undo, after the others.
fn put_undo(undo: AskList, count: usize, into: &mut Vec<Ask>)
    requires { vec_len into.old + length undo ≤ vec_capacity into.old }
    ensures { into.new.items ≡ into.old.items ++ take count undo }
{
    let mut undo = undo.into_vec();
    undo.truncate(count);
    match into.append(&mut undo) {
        Ok(()) => {}
        Err(_) => unreachable!(),
    }
}

/// Puts the asks after the others that were made where these answers came.
pub fn put_made(plan: &mut VecDeque<PlannedAsk>, answers: &[Answer], into: &mut Vec<Ask>)
    requires { vec_len into.old + most_asks plan.old.items ≤ vec_capacity into.old }
    ensures { into.new.items ≡ into.old.items ++ made_along plan.old.items answers.now }
{
    match answers {
        [] => {}
        [first, rest @ ..] => match plan.pop_front() {
            None => {}
            Some(planned) => {
                let PlannedAsk { ask, undo } = planned;
                into.push_reserved(ask);
                if is_ok_answer(first) {
                    drop(undo);
                    put_made(plan, rest, into);
                } else if is_undone(first) {
                    put_undo(undo, rest.len(), into);
                } else {
                    drop(undo);
                }
            }
        },
    }
}
