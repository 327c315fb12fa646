// The course of a phase before its first answer.
ghost use Rattle.std.specs.Prelude.{◌≡◌, IfOk, OnOk, length, slice_get, take};
ghost use Rattle.core_plan.specs.PhaseGoing.{first_phase, phase_planned};

use crate::phase_probe::{ask_at, undo_at};
use crate::{Course, Plan};
use domain_spec::{OpenOperation, PlannedAsk};
use std::alloc::Global;
use virt_types::{NoMemory, State};

// The ask at a place, with what undoes it.
fn planned_ask(
    alloc: Global,
    state: &State,
    operation: &OpenOperation,
    place: usize,
) -> Result<Option<PlannedAsk>, NoMemory>
    ensures { IfOk result (λ it. it ≡ slice_get (phase_planned state.now operation.now) place) }
{
    match ask_at(alloc, state, operation, place) {
        Ok(None) => Ok(None),
        Ok(Some(ask)) => match undo_at(alloc, state, operation, place) {
            Ok(undo) => Ok(Some(PlannedAsk { ask, undo })),
            Err(e) => Err(e),
        },
        Err(e) => Err(e),
    }
}

// The rest of the plan, after its beginning.
fn plan_on(
    alloc: Global,
    state: &State,
    operation: &OpenOperation,
    plan: &mut Plan,
) -> Result<(), NoMemory>
    requires { plan.old ≡ take (length plan.old) (phase_planned state.now operation.now) }
    ensures { OnOk result (plan.new ≡ phase_planned state.now operation.now) }
{
    match planned_ask(alloc, state, operation, plan.len()) {
        Ok(None) => Ok(()),
        Ok(Some(planned)) => {
            plan.push(planned)?;
            plan_on(alloc, state, operation, plan)
        }
        Err(e) => Err(e),
    }
}

/// The course of the due phase of this operation, before its first answer.
pub fn phase_course_of(
    alloc: Global,
    state: &State,
    operation: &OpenOperation,
) -> Result<Course, NoMemory>
    ensures { IfOk result (λ course. course ≡ first_phase state.now operation.now) }
{
    let mut plan = Plan::new(alloc);
    plan_on(alloc, state, operation, &mut plan)?;
    Course::of_plan(alloc, plan)
}
