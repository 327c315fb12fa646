// Each role of a story gets a pass that is cut off the first one, and comes back to it.
ghost use Rattle.std.specs.Prelude.{◌<◌, All, IfOk};

use crate::acting::Actor;
use crate::desk::StoryDesk;
use crate::row::Row;
use crate::scene::Scene;
use crate::stage::{Home, Stage};
use crate::stories::{Part, Step};
use monitor_link::Guests;
use std::alloc::{AllocError, Global};
use std::sync::Wait;
use virt_types::NoMemory;

/// How many threads a story has at most.
const MOST_THREADS: u64 = 100;

/// What one thread is to do, and its desk.
#[derive(Drop)]
pub(crate) struct Role<D> {
    desk: D,
    steps: &'static [Step],
}

/// A role for each thread, with a desk of its own, which has another such maker of guests.
pub(crate) fn roles_of<G: Guests + Drop, H: Copy>(
    scene: &Scene<H>,
    guests: G,
    parts: &[Part],
) -> Result<Vec<Role<StoryDesk<H, G>>>, NoMemory> {
    let mut guests = guests;
    let mut roles = Vec::new(scene.alloc);
    for part in parts {
        for _ in 0..part.threads {
            let desk = StoryDesk::new(scene, &mut guests, part.held_before)?;
            let steps = part.steps;
            roles.push(Role { desk, steps })?;
        }
    }
    Ok(roles)
}

/// Each role gets a pass; those past the hundredth get none.
pub(crate) fn cast<O: Stage<D>, D: Drop>(
    alloc: Global,
    stage: &O,
    home: Home<O::Pass>,
    roles: Vec<Role<D>>,
) -> Result<(Home<O::Pass>, Vec<Actor<O::Pass, D>>), AllocError>
    requires { O.is_home stage.now home.pass home.out }
    ensures home { IfOk result (λ r. O.is_home stage.now r.0.pass r.0.out) }
    ensures actors { IfOk result (λ r. All (λ actor. O.is_part stage.now actor.pass) r.1.items) }
{
    let mut home = home;
    let mut actors = Vec::new(alloc);
    for role in roles {
        if home.out >= MOST_THREADS {
            break;
        }
        let Role { desk, steps } = role;
        let (rest, pass) = stage.cut_off(home);
        home = rest;
        actors.push(Actor {
            pass,
            desk,
            number: home.out,
            steps,
            row: Row::new(alloc),
        })?;
    }
    Ok((home, actors))
}

/// All passes come back, and what was told is gathered, that of the last first.
pub(crate) fn gather<O: Stage<D>, D: Drop, H: Wait>(
    rt: &H,
    alloc: Global,
    stage: &O,
    home: Home<O::Pass>,
    all: Vec<Actor<O::Pass, D>>,
) -> Result<(Home<O::Pass>, Vec<Row>), AllocError>
    requires home { O.is_home stage.now home.pass home.out }
    requires acted { All (λ one. O.is_part stage.now one.pass) all.items }
    ensures { IfOk result (λ r. O.is_home stage.now r.0.pass r.0.out) }
{
    let mut home = home;
    let mut all = all;
    let mut said = Vec::new(alloc);
    while let Some(one) = all.pop() {
        let Actor {
            pass,
            desk: _,
            number: _,
            steps: _,
            row,
        } = one;
        home = stage.take_back(rt, home, pass);
        said.push(row)?;
    }
    Ok((home, said))
}
