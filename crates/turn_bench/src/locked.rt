use std::alloc::Global;
use std::sync::{Mutex, Wait};
use std::thread;
use std::thread::Threads;
use turn_examples::Counter;

/// Counts under a lock, in so many threads.
pub fn count<R: Threads + Wait + Sync>(
    rt: &R,
    alloc: Global,
    threads: u64,
    each: u64,
) -> Option<()> {
    let shared = Mutex::new(Counter::new(alloc));
    let threads = usize::try_from(threads).ok()?;
    thread::map_indices(rt, alloc, threads, &|_: usize| add_many(rt, &shared, each)).ok()?;
    Some(())
}

fn add_many<R: Wait>(rt: &R, shared: &Mutex<Counter>, each: u64) {
    for _ in 0..each {
        add_one(&mut *shared.lock(rt));
    }
}

fn add_one(counter: &mut Counter) -> bool {
    counter.add(1).is_ok()
}
