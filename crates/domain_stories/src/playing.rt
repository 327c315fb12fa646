// A story is played on a domain of its own, by as many threads as it has scripts.
ghost use Rattle.std.specs.Prelude.{◌≡◌, All, IfOk};

use crate::acting::{Actor, act};
use crate::casting::{Role, cast, gather, roles_of};
use crate::definition::definition;
use crate::desk::StoryDesk;
use crate::row::Row;
use crate::scene::Scene;
use crate::stage::{Home, Stage};
use crate::stories::Story;
use crate::told::told;
use domain_threads::{DomainObj, ThreadGuests};
use monitor_link::Guests;
use std::alloc::{AllocError, Global};
use std::sync::Wait;
use std::thread::{Threads, map_vec};
use virt_types::{DomainDef, NoMemory, both};

// All act, each in a thread of its own.
fn act_all<O, D, H>(
    scene: &Scene<H>,
    stage: &O,
    actors: Vec<Actor<O::Pass, D>>,
) -> Result<Vec<Actor<O::Pass, D>>, AllocError>
where
    O: Stage<D> + Sync,
    O::Pass: Send,
    D: Drop + Send,
    H: Threads + Wait + Copy + Send + Sync,
    requires { All (λ actor. O.is_part stage.now actor.pass) actors.items }
    ensures { IfOk result (λ all. All (λ one. O.is_part stage.now one.pass) all.items) }
{
    map_vec(
        &scene.rt,
        actors,
        &|actor: Actor<O::Pass, D>| -> Actor<O::Pass, D>
            requires { O.is_part stage.now actor.pass }
            ensures { O.is_part stage.entry.now result.pass }
        { act(scene, stage, actor) },
    )
}

// All roles are played, each in a thread by a pass of its own, which then comes back. What was told comes in the order of the
// roles.
fn play_all<O, D, H>(
    scene: &Scene<H>,
    stage: &O,
    home: Home<O::Pass>,
    roles: Vec<Role<D>>,
) -> Result<(Home<O::Pass>, Vec<Row>), AllocError>
where
    O: Stage<D> + Sync,
    O::Pass: Send,
    D: Drop + Send,
    H: Threads + Wait + Copy + Send + Sync,
    requires { O.is_home stage.now home.pass home.out }
    ensures { IfOk result (λ r. O.is_home stage.now r.0.pass r.0.out) }
{
    let (home, actors) = cast(scene.alloc, stage, home, roles)?;
    let acted = act_all(scene, stage, actors)?;
    let (home, mut said) = gather(&scene.rt, scene.alloc, stage, home, acted)?;
    said.reverse();
    Ok((home, said))
}

// The row of a story that is played on this stage, of which this is the first pass, with such guests.
fn play_on<O, G, H>(
    scene: &Scene<H>,
    stage: O,
    pass: O::Pass,
    guests: G,
    story: &Story,
) -> Result<Row, NoMemory>
where
    O: Stage<StoryDesk<H, G>> + Drop + Sync,
    O::Pass: Send,
    G: Guests + Drop + Send,
    H: Threads + Wait + Copy + Send + Sync,
    requires { O.is_home stage pass 0 }
{
    let roles = roles_of(scene, guests, story.parts)?;
    let (home, said) = play_all(scene, &stage, Home { pass, out: 0 }, roles)?;
    let history = stage.end(home);
    Ok(told(scene.alloc, said, &history, story.told))
}

// The row of a story, which is played on a domain of this definition.
fn play_with<G: ThreadGuests + Drop + Send, H: Threads + Wait + Copy + Send + Sync>(
    scene: &Scene<H>,
    guests: G,
    stored: DomainDef,
    story: &Story,
) -> Result<Row, NoMemory> {
    let first_ticket = story.first_ticket.min(1 << 62);
    match DomainObj::<G>::new_at(scene.alloc, Some(stored), false, first_ticket) {
        Ok((domain, pass)) => play_on(scene, domain, pass, guests, story),
        Err(NoMemory) => Err(NoMemory),
    }
}

/// Plays a story: what each thread does, with a pass of its own.
pub(crate) fn play<H: Threads + Wait + Copy + Send + Sync>(
    rt: H,
    alloc: Global,
    story: &Story,
) -> Result<Row, NoMemory> {
    let scene = Scene::new(rt, alloc, story.manner)?;
    let (guests, stored) = both(scene.guests(), definition(alloc))?;
    play_with(&scene, guests, stored, story)
}
