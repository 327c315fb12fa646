// What the threads of a story tell one another.
use std::alloc::Global;
use std::sync::atomic::{AtomicU64, Ordering};
use std::sync::{Arc, Wait};
use std::time::Duration;
use virt_types::NoMemory;

/// How often a thread that waits for a signal looks at most.
pub const MOST_RESTS: u32 = 10_000;

/// How long it rests between two looks at most, in milliseconds.
const REST_MILLIS: u64 = 5;

/// What one thread tells the others.
#[derive(Clone, Copy)]
pub enum Signal {
    /// A thread has begun.
    There,
    /// A call is held, or the monitor of the guest withholds an answer.
    Held,
    /// It may go on.
    Free,
    /// What ends the guest was called.
    Killed,
    /// A call was told that too many wait.
    Full,
    /// The call that others wait for was answered.
    Told,
    /// A call of the first session was answered.
    Answered,
}

/// How often each signal of a story was given.
#[derive(Drop)]
pub struct Signals {
    there: AtomicU64,
    held: AtomicU64,
    free: AtomicU64,
    killed: AtomicU64,
    full: AtomicU64,
    told: AtomicU64,
    answered: AtomicU64,
}

/// The signals of a story, as all that take part in it share them.
pub type SharedSignals = Arc<Signals, Global>;

impl Signals {
    /// None was given yet.
    pub fn shared(alloc: Global) -> Result<SharedSignals, NoMemory> {
        let signals = Signals {
            there: AtomicU64::new(0),
            held: AtomicU64::new(0),
            free: AtomicU64::new(0),
            killed: AtomicU64::new(0),
            full: AtomicU64::new(0),
            told: AtomicU64::new(0),
            answered: AtomicU64::new(0),
        };
        Ok(Arc::new(alloc, signals)?)
    }

    fn word(&self, signal: Signal) -> &AtomicU64 {
        match signal {
            Signal::There => &self.there,
            Signal::Held => &self.held,
            Signal::Free => &self.free,
            Signal::Killed => &self.killed,
            Signal::Full => &self.full,
            Signal::Told => &self.told,
            Signal::Answered => &self.answered,
        }
    }

    /// How often the signal was given.
    pub fn count(&self, signal: Signal) -> u64 {
        self.word(signal).load(Ordering::SeqCst)
    }

    /// Gives the signal.
    pub fn give(&self, signal: Signal) {
        let word = self.word(signal);
        word.fetch_add(1, Ordering::SeqCst);
        word.wake_all();
    }

    /// Rests until the signal was given more often than that, but not for long.
    pub fn rest<R: Wait>(&self, rt: &R, signal: Signal, seen: u64) {
        let most = Duration::from_millis(REST_MILLIS);
        self.word(signal)
            .park_timeout(rt, (seen % (1 << 32)) as u32, most);
    }

    /// Waits until the signal was given so often, but not forever.
    pub fn wait_for<R: Wait>(&self, rt: &R, signal: Signal, times: u64) {
        for _ in 0..MOST_RESTS {
            let seen = self.count(signal);
            if seen >= times {
                return;
            }
            self.rest(rt, signal, seen);
        }
    }

    /// Tells that something is held, and waits until it may go on.
    pub fn hold<R: Wait>(&self, rt: &R, until: Signal) {
        self.give(Signal::Held);
        self.wait_for(rt, until, 1);
    }
}
