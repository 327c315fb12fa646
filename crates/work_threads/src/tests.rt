ghost use Rattle.std.specs.Prelude.{◌≡◌};

use crate::{Job, Posted, Work, do_all, post, wait};
use std::sync::Wait;
use std::sync::atomic::{AtomicU32, Ordering};
use std::test::Fail;
use std::thread;
use std::thread::{Scope, Threads};

// Adds what it has to what all share.
#[derive(Drop)]
struct Adds {
    amount: u32,
}

impl Job<u32, AtomicU32, u32> for Adds {
    ghost use Rattle.std.specs.Prelude.{◌≡◌, ◌+◌, ◌^◌, ◌%◌};

    ghost may_do = { λ shared own job. Unit {0} };

    ghost has_done = { λ shared own job left. left ≡ (shared + job.amount) % 2 ^ 32 };

    fn done<R: Threads + Wait + Sync>(self, rt: &R, shared: &u32, own: &AtomicU32) -> u32 {
        own.fetch_add(self.amount, Ordering::SeqCst);
        shared.wrapping_add(self.amount)
    }
}

impl Work<u32, u32> for Adds {
    ghost use Rattle.std.specs.Prelude.{◌≡◌, ◌+◌, ◌^◌, ◌%◌};

    ghost may_do = { λ shared job. Unit {0} };

    ghost has_done = { λ shared job left. left ≡ (shared + job.amount) % 2 ^ 32 };

    fn done<R: Wait>(self, rt: &R, shared: &u32) -> u32 {
        shared.wrapping_add(self.amount)
    }
}

// What is left of two pieces of work, how many had no thread, and how often one was refused.
#[derive(Drop)]
struct Left {
    one: u32,
    other: u32,
    without: u32,
    refused: u32,
}

fn post_one<'s, E, R: Threads + Wait + Sync + 's>(
    scope: &Scope<'s, E>,
    rt: &'s R,
    shared: &'s u32,
    own: &'s AtomicU32,
    amount: u32,
    refused: &AtomicU32,
) -> Posted<u32, AtomicU32, Adds, u32> {
    post(scope, rt, shared, own, Adds { amount }, || {
        refused.fetch_add(1, Ordering::SeqCst);
    })
}

fn post_two<'s, E, R: Threads + Wait + Sync + 's>(
    scope: &Scope<'s, E>,
    rt: &'s R,
    shared: &'s u32,
    own: &'s AtomicU32,
) -> Left {
    let refused = AtomicU32::new(0);
    let one = post_one(scope, rt, shared, own, 1, &refused);
    let other = post_one(scope, rt, shared, own, 2, &refused);
    let without = u32::from(!one.is_running()) + u32::from(!other.is_running());
    Left {
        one: wait(rt, one),
        other: wait(rt, other),
        without,
        refused: refused.load(Ordering::SeqCst),
    }
}

// Whether threads are refused here depends on the limits of the process; the work is done anyway.
#[test]
fn what_was_posted_is_left_when_it_is_waited_for(rt: HostRuntime) {
    let shared = 40;
    let own = AtomicU32::new(0);
    let left = thread::scope(
        thread::scope_env(),
        &rt,
        |scope| -> Left
            requires { shared ≡ shared }
        { post_two(scope, &rt, &shared, &own) },
    );
    assert_eq!(rt; (left.one, left.other), (41, 42));
    assert_eq!(rt; left.refused, left.without);
    assert_eq!(rt; own.load(Ordering::SeqCst), 3);
}

#[test]
fn pieces_come_back_in_order(rt: HostRuntime) -> Result<(), Fail> {
    let all = vec![in rt.alloc(); Adds { amount: 1 }, Adds { amount: 2 }]?;
    let left = do_all(&rt, &40, all)?;
    assert_eq!(rt; left.as_slice(), [41, 42].as_slice());
    Ok(())
}
