// What one thread of a story does with its pass, step by step.
use crate::asked::{Asked, call_of};
use crate::row::Row;
use crate::scene::Scene;
use crate::stage::Stage;
use crate::stories::Step;
use crate::words::{hushed_word, is_full, put_info, put_reply};
use std::sync::Wait;
use story_guests::{MOST_RESTS, Signal};
use virt_types::{Reply, Who};

/// One who acts, with what is to be done, and what was told meanwhile.
#[derive(Drop)]
pub(crate) struct Actor<P, D> {
    pub(crate) pass: P,
    pub(crate) desk: D,
    pub(crate) number: u64,
    pub(crate) steps: &'static [Step],
    pub(crate) row: Row,
}

// Writes what a call was told, and gives the signal where too many wait.
fn put_called<H>(scene: &Scene<H>, row: &mut Row, asked: Asked, reply: &Reply) {
    row.put(asked.word());
    row.put(" ");
    put_reply(row, reply);
    row.put(", ");
    if is_full(reply) {
        scene.signals.give(Signal::Full);
    }
}

// A call, which the desk may hold before a phase.
fn call_once<O: Stage<D>, D, H: Wait>(
    scene: &Scene<H>,
    stage: &O,
    pass: O::Pass,
    desk: &mut D,
    who: Who,
    asked: Asked,
    row: &mut Row,
) -> O::Pass
    requires { O.is_part stage.now pass }
    ensures { O.is_part stage.now result }
{
    let Ok(call) = call_of(scene.alloc, asked) else {
        row.lose();
        return pass;
    };
    let (after, reply) = stage.call(&scene.rt, scene.alloc, pass, who, &call, desk);
    put_called(scene, row, asked, &reply);
    after
}

// Whether nothing more is to be watched; else it rests a little.
fn is_over<H: Wait>(scene: &Scene<H>, until: Option<Signal>) -> bool {
    let Some(until) = until else {
        return true;
    };
    if scene.signals.count(until) > 0 {
        return true;
    }
    scene.signals.rest(&scene.rt, until, 0);
    false
}

// Reads the state once, or until a signal, and writes it each time that it is another one than before.
fn watch<O: Stage<D>, D, H: Wait>(
    scene: &Scene<H>,
    stage: &O,
    pass: O::Pass,
    until: Option<Signal>,
    row: &mut Row,
) -> O::Pass
    requires { O.is_part stage.now pass }
    ensures { O.is_part stage.now result }
{
    let mut pass = pass;
    let mut last = Row::new(scene.alloc);
    for _ in 0..MOST_RESTS {
        let (after, queried) = stage.look(&scene.rt, scene.alloc, pass);
        pass = after;
        let mut now = Row::new(scene.alloc);
        put_info(&mut now, &queried);
        if now.as_str() != last.as_str() {
            row.put(now.as_str());
        }
        last = now;
        if is_over(scene, until) {
            break;
        }
    }
    pass
}

// Hears the guest.
fn hear<O: Stage<D>, D, H: Wait>(
    scene: &Scene<H>,
    stage: &O,
    pass: O::Pass,
    row: &mut Row,
) -> O::Pass
    requires { O.is_part stage.now pass }
    ensures { O.is_part stage.now result }
{
    let (after, hushed) = stage.listen(&scene.rt, scene.alloc, pass);
    row.put("hear ");
    row.put(hushed_word(hushed));
    row.put(", ");
    after
}

// One step.
fn take_step<O: Stage<D>, D, H: Wait>(
    scene: &Scene<H>,
    stage: &O,
    pass: O::Pass,
    desk: &mut D,
    who: Who,
    step: Step,
    row: &mut Row,
) -> O::Pass
    requires { O.is_part stage.now pass }
    ensures { O.is_part stage.now result }
{
    match step {
        Step::Call(asked) => call_once(scene, stage, pass, desk, who, asked, row),
        Step::Info => watch::<O, D, H>(scene, stage, pass, None, row),
        Step::Watch(until) => watch::<O, D, H>(scene, stage, pass, Some(until), row),
        Step::Hear => hear::<O, D, H>(scene, stage, pass, row),
        Step::Wait(signal, times) => {
            scene.signals.wait_for(&scene.rt, signal, times);
            pass
        }
        Step::Give(signal) => {
            scene.signals.give(signal);
            pass
        }
    }
}

/// All steps, one after the other.
pub(crate) fn act<O: Stage<D>, D: Drop, H: Wait>(
    scene: &Scene<H>,
    stage: &O,
    actor: Actor<O::Pass, D>,
) -> Actor<O::Pass, D>
    requires { O.is_part stage.now actor.pass }
    ensures { O.is_part stage.now result.pass }
{
    let Actor {
        mut pass,
        mut desk,
        number,
        steps,
        mut row,
    } = actor;
    let mut count: u64 = 0;
    for step in steps {
        let who = Who {
            session: number,
            lane: 0,
            count,
        };
        pass = take_step(scene, stage, pass, &mut desk, who, *step, &mut row);
        count = count.saturating_add(1);
    }
    Actor {
        pass,
        desk,
        number,
        steps,
        row,
    }
}
