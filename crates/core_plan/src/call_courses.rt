// The course of a call before its first answer.
ghost use Rattle.std.specs.Prelude.{◌≡◌, [], IfOk, OnOk, length, slice_get, take};
ghost use Rattle.core_rules.specs.Cores.{core_of_call};
ghost use Rattle.core_rules.specs.declared.cores.Core.TheVariants as core;
ghost use Rattle.core_mark_laws.specs.Tidy.{planned};

use crate::probe::{ask_at, undo_at};
use crate::{Course, Plan};
use core_rules::{Core, core_of_call};
use domain_spec::PlannedAsk;
use std::alloc::Global;
use virt_types::{Call, NoMemory, State};

// The ask at a place, with what undoes it.
fn planned_ask(
    alloc: Global,
    state: &State,
    call: &Call,
    boot: Option<u64>,
    place: usize,
) -> Result<Option<PlannedAsk>, NoMemory>
    ensures { IfOk result (λ it. it ≡ slice_get (planned state.now call.now boot) place) }
{
    match ask_at(alloc, state, call, boot, place) {
        Ok(None) => Ok(None),
        Ok(Some(ask)) => match undo_at(alloc, state, call, boot, place) {
            Ok(undo) => Ok(Some(PlannedAsk { ask, undo })),
            Err(e) => Err(e),
        },
        Err(e) => Err(e),
    }
}

// The rest of a call's plan, after its beginning.
fn plan_on(
    alloc: Global,
    state: &State,
    call: &Call,
    boot: Option<u64>,
    plan: &mut Plan,
) -> Result<(), NoMemory>
    requires { plan.old ≡ take (length plan.old) (planned state.now call.now boot) }
    ensures { OnOk result (plan.new ≡ planned state.now call.now boot) }
{
    match planned_ask(alloc, state, call, boot, plan.len()) {
        Ok(None) => Ok(()),
        Ok(Some(planned)) => {
            plan.push(planned)?;
            plan_on(alloc, state, call, boot, plan)
        }
        Err(e) => Err(e),
    }
}

// The course of a call on a device, each ask and each undo of which is tried.
fn device_course(
    alloc: Global,
    state: &State,
    call: &Call,
    boot: Option<u64>,
) -> Result<Course, NoMemory>
    ensures { IfOk result (λ course. course ≡ record { plan = planned state.now call.now boot; answers = [] }) }
{
    let mut plan = Plan::new(alloc);
    plan_on(alloc, state, call, boot, &mut plan)?;
    Course::of_plan(alloc, plan)
}

// The course of any other call, which asks at most once.
fn short_course(
    alloc: Global,
    state: &State,
    call: &Call,
    boot: Option<u64>,
) -> Result<Course, NoMemory>
    requires { core_of_call call.now ≡ core.Hotplug → ⊥ }
    ensures { IfOk result (λ course. course ≡ record { plan = planned state.now call.now boot; answers = [] }) }
{
    match ask_at(alloc, state, call, boot, 0) {
        Ok(ask) => Course::of_one(alloc, ask),
        Err(e) => Err(e),
    }
}

/// The course of a call that carries this boot, before its first answer.
pub fn course_of(
    alloc: Global,
    state: &State,
    call: &Call,
    boot: Option<u64>,
) -> Result<Course, NoMemory>
    ensures { IfOk result (λ course. course ≡ record { plan = planned state.now call.now boot; answers = [] }) }
{
    match core_of_call(call) {
        Core::Hotplug => device_course(alloc, state, call, boot),
        Core::Lifecycle | Core::Save | Core::Snapshot => short_course(alloc, state, call, boot),
    }
}
