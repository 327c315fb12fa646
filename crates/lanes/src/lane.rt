ghost use Rattle.std.specs.Prelude.{◌≡◌, ◌<◌, ◌∷◌, ◌++◌, [], true, false, IsTrue, IfOk, OnOk, IfErr, IfSome, IfNone};
ghost use Rattle.lanes.specs.Ends.{AreInOrder, HeldThen, fresh, has_put, has_taken, joined};

use crate::rule::{Ends, Knows, Line, Puts, Takes};
use crate::sleep::Bell;
use crossbeam_queue::Pass;
use std::alloc::Global;
use std::marker::Model;
use std::sync::{Arc, Wait};
use types_base::NoMemory;

/// How many calls a lane of a session holds at most.
pub const ROOM: u32 = 16;

// What both ends share.
#[derive(Drop)]
struct Shared<T> {
    line: Line<T>,
    bell: Bell,
}

/// An end of a lane, for one thread at a time. Contracts see what it may do, all that was put where
/// it may put, and all that was taken where it may take. The pieces that are left when both ends
/// are gone are dropped.
#[derive(Drop)]
pub struct Lane<T> {
    shared: Arc<Shared<T>, Global>,
    pass: Pass<T, Knows<T>>,
}

impl<T> Model for Lane<T> {
    ghost use Rattle.std.specs.Arc.{arc_value};
    ghost use Rattle.crossbeam_queue.specs.Passes.{IsPassOf, ruled_capacity};
    ghost use Rattle.lanes.specs.Ends.{End, end_of};

    ghost Value = { End T };

    ghost view = { λ l. end_of (ruled_capacity (arc_value l.shared).line) l.pass };

    ghost invariant = { λ l. IsPassOf (arc_value l.shared).line l.pass };
}

impl<T: Drop> Lane<T> {
    /// A lane that holds so many pieces at most: the end that puts, and the end that takes.
    pub fn new(alloc: Global, most: u32) -> Result<(Lane<T>, Lane<T>), NoMemory>
        requires { 0 < most }
        ensures puts { IfOk result (λ ends. ends.0 ≡ fresh ends.1.lane most true false) }
        ensures takes { IfOk result (λ ends. ends.1 ≡ fresh ends.0.lane most false true) }
    {
        let (line, mut pass) = Line::ruled(alloc, most as usize)?;
        let other = line.another::<Ends>(&mut pass);
        let bell = Bell::new();
        let shared = Arc::new(alloc, Shared { line, bell })?;
        let again = Arc::try_clone(&shared)?;
        let takes = Lane {
            shared: again,
            pass: other,
        };
        Ok((Lane { shared, pass }, takes))
    }

    /// Puts a piece behind those that are held. It comes back only where the lane held as many as
    /// it may at a moment of this call.
    pub fn put<R: Wait>(&mut self, rt: &R, piece: T) -> Result<(), T>
        requires { self.old.puts ≡ true }
        ensures ok { OnOk result (self.new ≡ has_put self.old piece) }
        ensures back { IfErr result (λ back. back ≡ piece) }
        ensures full { IfErr result (λ _. HeldThen self.old.most self.old) }
        ensures same { IfErr result (λ _. self.new ≡ self.old) }
    {
        let put = self
            .shared
            .line
            .push_as::<Puts, R>(rt, &mut self.pass, piece);
        self.ring_if(put.is_ok());
        put
    }

    fn ring_if(&self, is_put: bool) {
        if is_put {
            self.shared.bell.ring();
        }
    }

    /// Says that no more pieces will come. What is held can still be taken.
    pub fn close(&self) {
        self.shared.bell.close();
    }

    /// Takes the first piece that is held. There is none only where the lane held none at a moment
    /// of this call.
    #[tactic(auto, using(crate::proofs::Moves::none_left))]
    pub fn take<R: Wait>(&mut self, rt: &R) -> Option<T>
        requires { self.old.takes ≡ true }
        ensures some { IfSome result (λ piece. self.new ≡ has_taken self.old piece) }
        ensures empty { IfNone result (HeldThen 0 self.old) }
        ensures all { IfNone result (self.old.puts ≡ true → self.old.put ≡ self.old.taken) }
        ensures same { IfNone result (self.new ≡ self.old) }
    {
        self.shared.line.pop_as::<Takes, R>(rt, &mut self.pass)
    }

    /// Whether the lane held nothing at a moment of this call.
    pub fn is_empty(&mut self) -> bool
        requires { self.old.takes ≡ true }
        ensures empty { IsTrue result → HeldThen 0 self.old }
        ensures same { self.new ≡ self.old }
    {
        self.shared.line.is_empty_as::<Takes>(&mut self.pass)
    }

    /// Takes the first piece that is held, and waits for one where there is none, until the lane is
    /// closed. There is none only where the lane held none at a moment of this call.
    pub fn next<R: Wait>(&mut self, rt: &R) -> Option<T>
        requires { self.old.takes ≡ true }
        ensures some { IfSome result (λ piece. self.new ≡ has_taken self.old piece) }
        ensures empty { IfNone result (HeldThen 0 self.old) }
        ensures all { IfNone result (self.old.puts ≡ true → self.old.put ≡ self.old.taken) }
        ensures same { IfNone result (self.new ≡ self.old) }
    {
        let mut seen = self.shared.bell.moves();
        let mut sleeps = false;
        for _ in rt.forever() {
            let is_closed = self.shared.bell.is_closed();
            let found = self.take(rt);
            if found.is_some() || is_closed {
                return found;
            }
            if sleeps {
                self.shared.bell.sleep(rt, seen);
            }
            sleeps = !sleeps && !self.shared.bell.moves_soon(seen);
            seen = if sleeps {
                self.shared.bell.about_to_sleep()
            } else {
                self.shared.bell.moves()
            };
        }
        unreachable!()
    }

    /// Both ends as one, which may put and take: what was put was taken, each piece once and in
    /// order, or is left.
    pub fn join(self, other: Lane<T>) -> Lane<T>
        requires lane { other.lane ≡ self.lane }
        requires puts { self.puts ≡ true }
        requires takes { other.takes ≡ true }
        ensures both { result ≡ joined self other }
        ensures order { AreInOrder self.put other.taken }
    {
        let Lane { shared, mut pass } = self;
        let Lane {
            shared: _,
            pass: part,
        } = other;
        shared.line.absorb::<Ends>(&mut pass, part);
        shared.line.learn_as::<Takes>(&mut pass);
        Lane { shared, pass }
    }
}
