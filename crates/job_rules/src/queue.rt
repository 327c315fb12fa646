// The callers that wait, and by which passes.
ghost use Rattle.std.specs.Prelude.{◌≡◌, ◌↔◌, ◌<◌, ◌≤◌, ◌+◌, ◌∷◌, ◌++◌, ℕ, [], IfErr, IfOk, IsErr, OnErr, OnOk, length, map, position};
ghost use Rattle.std.specs.Vec.{vec_capacity, vec_len};
ghost use Rattle.domain_spec.specs.Kept.{joined_queue, left_queue, looked, looks_of, without_caller};
ghost use Rattle.domain_spec.specs.Open.{AreDistinct, IsCrowded};
ghost use Rattle.job_rules.specs.QueueWaiting.{callers_in, is_of};

use crate::passes::Passes;
use crate::waiting::Waiter;
use crate::{Waiters, WaitersFull};
use std::alloc::Global;
use std::marker::Model;
use virt_types::{ListOf, NoMemory, RoomyList, Who};

// How many callers may wait for one domain.
const MOST_WAITING: usize = 32;

/// The callers that wait for a domain's job, at most 32 and none twice, in the order in which they came,
/// each with how many of its looks found it excluded; and the passes by which they wait, which contracts
/// alone see. Its room is taken as it is made, so that to wait takes no memory.
#[derive(Drop)]
pub struct Queue {
    callers: Vec<Waiter>,
    passes: Passes,
}

impl Model for Queue {
    ghost use Rattle.std.specs.Prelude.{◌≤◌, map};
    ghost use Rattle.std.specs.Vec.{vec_capacity, vec_len};
    ghost use Rattle.domain_spec.specs.Cell.{Queue as Waiting};
    ghost use Rattle.domain_spec.specs.Open.{AreDistinct};

    ghost Value = { Waiting };

    ghost view = { λ q. record { callers = q.callers.items; passes = q.passes.list } };

    ghost invariant = { λ q. AreDistinct (map (λ w. w.who) q.callers.items) × (vec_len q.callers ≤ 32) × (32 ≤ vec_capacity q.callers) };
}

impl Queue {
    /// Nobody waits.
    pub fn new(alloc: Global) -> Result<Queue, NoMemory>
        ensures { IfOk result (λ queue. queue ≡ record { callers = []; passes = [] }) }
    {
        Ok(Queue {
            callers: Vec::with_capacity(alloc, MOST_WAITING)?,
            passes: Passes::none(),
        })
    }

    /// Those that wait.
    pub fn as_slice(&self) -> &[Waiter]
        ensures { result.now ≡ self.now.callers }
    {
        self.callers.as_slice()
    }

    /// How many looks of this caller found it excluded; 0 where it doesn't wait.
    pub fn looks(&self, who: Who) -> u32
        ensures { result ≡ looks_of self.now.callers who }
    {
        match self.callers.iter().find(|waiter| is_of(waiter, who)) {
            Some(waiter) => waiter.looks,
            None => 0,
        }
    }

    /// A look found the caller excluded: it waits, by the pass of this number. The answer is how many of
    /// its looks found it so. Where 32 others wait nothing changes.
    #[tactic(auto, using(crate::proofs::Distinct::distinct_looked))]
    pub fn look(&mut self, who: Who) -> Result<u32, WaitersFull>
        ghost number: { ℕ }
        ensures ok { OnOk result (self.new ≡ joined_queue self.old number who) }
        ensures looks { IfOk result (λ looks. looks ≡ looks_of self.new.callers who) }
        ensures crowded { IsErr result ↔ IsCrowded (callers_in self.old) who }
        ensures count { IfErr result (λ full. full.waiting ≡ 32) }
        ensures err { OnErr result (self.new ≡ self.old) }
    {
        count_look(&mut self.callers, who)?;
        self.passes = self.passes.with(who);
        Ok(self.looks(who))
    }

    /// The caller waits no more, and the pass of this number neither.
    #[tactic(auto, using(crate::proofs::Distinct::distinct_left))]
    pub fn leave(&mut self, who: Who)
        ghost number: { ℕ }
        ensures { self.new ≡ left_queue self.old number who }
    {
        remove(&mut self.callers, who);
        self.passes = self.passes.without(who);
    }

    /// The callers alone, as a refusal has them.
    pub fn callers(&self, alloc: Global) -> Result<ListOf<Who>, NoMemory>
        ensures { IfOk result (λ callers. callers ≡ callers_in self.now) }
    {
        let mut list = RoomyList::with_room(alloc, self.callers.len())?;
        put_callers(self.callers.as_slice(), &mut list);
        Ok(list.into_list())
    }
}

// Whether it is this caller.
fn is_of(waiter: &Waiter, who: Who) -> bool
    ensures { result ≡ is_of who waiter.now }
{
    waiter.who == who
}

fn place_of(callers: &[Waiter], who: Who) -> Option<usize>
    ensures { result ≡ position (is_of who) callers.now }
{
    callers.iter().position(|waiter| is_of(waiter, who))
}

// One more look of a caller; it comes last where it wasn't there.
#[tactic(auto, using(crate::proofs::Places::looked_at, crate::proofs::Places::looked_new, crate::proofs::Places::not_crowded, crate::proofs::Places::is_crowded))]
fn count_look(callers: &mut Vec<Waiter>, who: Who) -> Result<(), WaitersFull>
    requires distinct { AreDistinct (map (λ w. w.who) callers.old.items) }
    requires most { vec_len callers.old ≤ 32 }
    requires room { 32 ≤ vec_capacity callers.old }
    ensures ok { OnOk result (callers.new.items ≡ looked callers.old.items who) }
    ensures crowded { IsErr result ↔ IsCrowded (map (λ w. w.who) callers.old.items) who }
    ensures count { IfErr result (λ full. full.waiting ≡ 32) }
    ensures err { OnErr result (callers.new.items ≡ callers.old.items) }
    ensures stays { (vec_len callers.new ≤ 32) × (32 ≤ vec_capacity callers.new) }
{
    match place_of(callers.as_slice(), who) {
        Some(place) => {
            callers[place].count();
            Ok(())
        }
        None => {
            if callers.len() >= MOST_WAITING {
                return Err(WaitersFull {
                    waiting: MOST_WAITING as u64,
                });
            }
            callers.push_reserved(Waiter { who, looks: 1 });
            Ok(())
        }
    }
}

// The caller waits no more.
#[tactic(auto, using(crate::proofs::Places::left_at, crate::proofs::Places::none_left))]
fn remove(callers: &mut Vec<Waiter>, who: Who)
    requires distinct { AreDistinct (map (λ w. w.who) callers.old.items) }
    ensures items { callers.new.items ≡ without_caller callers.old.items who }
    ensures len { vec_len callers.new ≤ vec_len callers.old }
    ensures capacity { vec_capacity callers.new ≡ vec_capacity callers.old }
{
    if let Some(place) = place_of(callers.as_slice(), who) {
        drop(callers.remove(place));
    }
}

// Puts these callers after the others.
fn put_callers(waiters: &[Waiter], into: &mut RoomyList<Who>)
    requires room { length waiters.now ≤ into.old.room }
    ensures { into.new.list ≡ into.old.list ++ map (λ w. w.who) waiters.now }
{
    match waiters {
        [] => {}
        [first, rest @ ..] => {
            into.push(first.who);
            put_callers(rest, into);
        }
    }
}
