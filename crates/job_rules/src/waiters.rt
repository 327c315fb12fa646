// Who waits until a domain's job is free: a table of 32 places.
ghost use Rattle.std.specs.Prelude.{◌≡◌, ◌<◌, ◌≤◌, ◌++◌, ◌∷◌, ◌↔◌, [], length, IfErr, IsErr, OnErr, OnOk, false};
ghost use Rattle.domain_spec.specs.Open.{AreDistinct, IsCrowded, is_among, is_same_who};
ghost use Rattle.job_rules.specs.Waiting.{joined, without};

use std::marker::Model;
use virt_types::Who;

// How many calls may wait for one domain.
const MOST: usize = 32;

// What is at a place where nobody waits.
const NOBODY: Who = Who {
    session: 0,
    lane: 0,
    count: 0,
};

/// As many calls wait already as there are places.
#[derive(Clone, Copy, Debug, PartialEq, Eq)]
pub struct WaitersFull {
    /// How many wait.
    pub waiting: u64,
}

/// The calls that wait for one domain, at most 32 of them and none twice. It is plain data of a fixed
/// size, so to wait takes no memory; contracts see it as the list of the callers, in the order in which
/// they came.
#[derive(Clone, Copy)]
pub struct Waiters {
    // The callers come first; nobody is at the places after them.
    places: [Who; 32],
    count: usize,
}

impl Model for Waiters {
    ghost use Rattle.std.specs.Prelude.{List, length, take};
    ghost use Rattle.domain_spec.specs.Types.{Who};
    ghost use Rattle.job_rules.specs.Table.{IsFilled, padded};

    ghost Value = { List Who };

    ghost view = { λ w. take w.count w.places };

    ghost invariant = { λ w. IsFilled w.places w.count };

    ghost inverse = { λ callers. record { places = padded callers; count = length callers } };

    ghost inverse_ok = { λ w filled i. record { places = filled.padding i; count = filled.counted i } };
}

impl Waiters {
    /// Nobody waits.
    pub fn new() -> Waiters
        ensures { result ≡ [] }
    {
        Waiters {
            places: [NOBODY; 32],
            count: 0,
        }
    }

    /// The callers that wait, in the order in which they came.
    pub fn as_slice(&self) -> &[Who]
        ensures list { result.now ≡ self.now }
        ensures most { length self.now ≤ 32 }
        ensures distinct { AreDistinct self.now }
    {
        self.places.split_at(self.count).0
    }

    /// Whether this caller waits.
    pub fn has(&self, who: Who) -> bool
        ensures { result ≡ is_among self.now who }
    {
        self.as_slice()
            .iter()
            .any(|waiter| is_same_who(who, *waiter))
    }

    /// This caller waits from now on, after the others. One who waits already stays where they are.
    pub fn wait(&mut self, who: Who) -> Result<(), WaitersFull>
        ensures ok { OnOk result (self.new ≡ joined self.old who) }
        ensures crowded { IsErr result ↔ IsCrowded self.old who }
        ensures count { IfErr result (λ full. full.waiting ≡ 32) }
        ensures err { OnErr result (self.new ≡ self.old) }
    {
        if self.has(who) {
            return Ok(());
        }
        if self.as_slice().len() == MOST {
            return Err(WaitersFull {
                waiting: MOST as u64,
            });
        }
        self.push(who);
        Ok(())
    }

    /// This caller waits no more.
    pub fn unwait(&mut self, who: Who)
        ensures { self.new ≡ without self.old who }
    {
        let mut others = Waiters::new();
        for waiter in self.as_slice() {
            if !is_same_who(who, *waiter) {
                others.push(*waiter);
            }
        }
        *self = others;
    }

    fn push(&mut self, who: Who)
        requires room { length self.old < 32 }
        requires other { is_among self.old who ≡ false }
        ensures { self.new ≡ self.old ++ who ∷ [] }
    {
        self.places[self.count] = who;
        self.count += 1;
    }
}

fn is_same_who(one: Who, other: Who) -> bool
    ensures { result ≡ is_same_who one other }
{
    one == other
}
