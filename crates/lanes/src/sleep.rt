// Where the end that takes sleeps while nothing is held. No clause speaks of it.
use std::hint::spin_loop;
use std::sync::Wait;
use std::sync::atomic::{AtomicBool, AtomicU64, Ordering};

/// How often the end that takes looks for a move before it sleeps. A sleep and its end take a
/// system call each, and a piece mostly comes sooner than these.
const LOOKS: u32 = 200;

/// In the word of the moves: someone may sleep. The bits above count the moves.
const ASLEEP: u64 = 1;

/// What the two ends say to each other beside the pieces.
#[derive(Drop)]
pub(crate) struct Bell {
    moves: AtomicU64,
    is_closed: AtomicBool,
}

impl Bell {
    pub(crate) fn new() -> Bell {
        Bell {
            moves: AtomicU64::new(0),
            is_closed: AtomicBool::new(false),
        }
    }

    /// A piece was put. It makes no system call where nobody sleeps.
    pub(crate) fn ring(&self) {
        let before = self.moves.fetch_add(2, Ordering::SeqCst);
        if before % 2 == ASLEEP {
            self.moves.fetch_add(1, Ordering::SeqCst);
            self.moves.wake_all();
        }
    }

    /// No more pieces will come.
    pub(crate) fn close(&self) {
        self.is_closed.store(true, Ordering::SeqCst);
        self.ring();
    }

    pub(crate) fn is_closed(&self) -> bool {
        self.is_closed.load(Ordering::SeqCst)
    }

    /// Waits a little for the next move after this one.
    pub(crate) fn moves_soon(&self, seen: u64) -> bool {
        for _ in 0..LOOKS {
            if self.moves.load(Ordering::SeqCst) != seen {
                return true;
            }
            spin_loop();
        }
        false
    }

    /// How often it moved so far.
    pub(crate) fn moves(&self) -> u64 {
        self.moves.load(Ordering::SeqCst)
    }

    /// Notes that someone is about to sleep, who has to look once more before it does.
    pub(crate) fn about_to_sleep(&self) -> u64 {
        self.moves.fetch_or(ASLEEP, Ordering::SeqCst) | ASLEEP
    }

    /// Sleeps until the next move, or not at all where there was one since `noted`.
    pub(crate) fn sleep<R: Wait>(&self, rt: &R, noted: u64) {
        self.moves.park(rt, (noted % (1 << 32)) as u32);
    }
}
