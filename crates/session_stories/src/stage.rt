// The sessions of a story are served over a driver of their own.
use crate::lines::Lines;
use crate::scene::Scene;
use crate::stories::Story;
use crate::told::told;
use driver_sessions::{Driver, Session, serve_and_close};
use files_disk::MemFiles;
use monitor_link::Guests;
use packet::Source;
use packet::memory::MemorySink;
use std::alloc::Global;
use std::marker::Brand;
use std::sync::Wait;
use std::thread::Threads;
use types_base::{Gate, NoMemory, Random, both};

// What is told of the sessions, once each was served in a thread of its own over a driver without domains, with such guests, and
// the driver was closed. None where it could not be opened or closed, or there was no memory.
fn serve<G, S, N, T, H>(
    rt: &H,
    alloc: Global,
    guests: G,
    sessions: Vec<Session<S, MemorySink, N, T>>,
) -> Option<Lines>
where
    G: Guests + Drop + Send,
    G::M: Send,
    G::E: Send,
    G::Z: Send,
    S: Source + Drop + Send,
    N: Random + Drop + Send,
    T: Gate + Drop + Send,
    H: Threads + Wait + Sync,
{
    match Driver::<MemFiles, Brand, G>::open(alloc, MemFiles::new(alloc), guests) {
        Ok((driver, row)) => {
            let left = serve_and_close(rt, alloc, driver, row, sessions)?;
            Some(told(alloc, left.served.as_slice()))
        }
        Err(_) => None,
    }
}

/// Plays a story: a session for each part. None where its driver could not be closed.
pub(crate) fn play<H: Threads + Wait + Copy + Send + Sync>(
    rt: H,
    alloc: Global,
    story: &Story,
) -> Result<Option<Lines>, NoMemory> {
    let scene = Scene::new(rt, alloc, story.manner)?;
    let (guests, sessions) = both(scene.guests(), scene.sessions(story.parts))?;
    Ok(serve(&rt, alloc, guests, sessions))
}
