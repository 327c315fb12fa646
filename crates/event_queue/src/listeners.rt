// All registrations of a domain.
ghost use Rattle.std.specs.Prelude.{◌≡◌, ◌≤◌, ◌+◌, ◌++◌, ◌∷◌, [], map, option_map, position, IfOk, IfSome, OnErr, OnOk, true, false, None};
ghost use Rattle.std.specs.Vec.{vec_capacity, vec_len};
ghost use Rattle.domain_spec.specs.Registrations.{with_pending};
ghost use Rattle.event_queue.specs.Listening.{AreAllTaken, HandsOut, IsLeastFree, cut_mark, dropped_by, emptied_by, has_client, heard, hears, is_lost, is_of, left_by, listening_of, loss_told, new_listening, pending_of, registrations, taken_by};
ghost use Rattle.event_queue.specs.Telling.{cuts_due};

use crate::cut::Cut;
use crate::listener::Listener;
use crate::taken::Taken;
use history_spec::Stamp;
use std::alloc::Global;
use std::marker::Model;
use types_base::{ListOf, NoMemory, Transition};

/// How many registrations a domain has at most.
pub const MOST_LISTENERS: u32 = 16;

/// The registrations of a domain, each of another client, in the order in which they were made. Room for
/// what they will need is taken as they are made, so that transitions take no memory.
#[derive(Drop)]
pub struct Listeners {
    all: Vec<Listener>,
    cuts: Vec<Cut>,
}

impl Model for Listeners {
    ghost use Rattle.std.specs.Prelude.{◌≤◌, map};
    ghost use Rattle.std.specs.Vec.{vec_capacity, vec_len};
    ghost use Rattle.event_queue.specs.Listening.{AreApart, Registered, cut_mark};

    ghost Value = { Registered };

    ghost view = { λ l. record { listeners = l.all.items; due = map cut_mark l.cuts.items } };

    ghost invariant = { λ l. AreApart l.all.items × (vec_len l.all ≤ vec_capacity l.cuts) };
}

impl Listeners {
    /// Nobody is registered.
    pub fn new(alloc: Global) -> Listeners
        ensures { result ≡ record { listeners = []; due = [] } }
    {
        Listeners {
            all: Vec::new(alloc),
            cuts: Vec::new(alloc),
        }
    }

    /// The registrations, in the order in which they were made.
    pub fn as_slice(&self) -> &[Listener]
        ensures { result.now ≡ self.now.listeners }
    {
        self.all.as_slice()
    }

    /// The cuts that are due since the last transitions.
    pub fn due(&self) -> &[Cut]
        ensures { map cut_mark result.now ≡ self.now.due }
    {
        self.cuts.as_slice()
    }

    /// Whether this client is registered.
    pub fn has(&self, client: u32) -> bool
        ensures { result ≡ has_client self.now.listeners client }
    {
        self.all.iter().any(|listener| listener.is_of(client))
    }

    /// The least number below 16 that no registration has; none where each has one.
    pub fn least_free(&self) -> Option<u32>
        ensures some { IfSome result (λ client. IsLeastFree self.now.listeners client) }
        ensures none { result ≡ None → AreAllTaken self.now.listeners }
    {
        for client in 0..MOST_LISTENERS {
            if !self.has(client) {
                return Some(client);
            }
        }
        None
    }

    /// Registers a client, after the others. Where there is no memory nothing changes.
    #[tactic(auto, using(crate::proofs::Apart::apart_more))]
    pub fn add(&mut self, alloc: Global, by: Stamp, client: u32) -> Result<(), NoMemory>
        requires free { has_client self.old.listeners client ≡ false }
        ensures ok { OnOk result (self.new.listeners ≡ self.old.listeners ++ new_listening by.number client ∷ []) }
        ensures err { OnErr result (self.new.listeners ≡ self.old.listeners) }
        ensures due { self.new.due ≡ self.old.due }
    {
        let listener = Listener::new(alloc, by, client)?;
        self.cuts.reserve(self.all.len() + 1)?;
        self.all.reserve(1)?;
        self.all.push_reserved(listener);
        Ok(())
    }

    /// These transitions come for each registration. It takes no memory.
    #[tactic(auto, using(crate::proofs::Apart::apart_heard))]
    pub fn hear(&mut self, events: &[Transition])
        ensures { self.new ≡ heard events.now self.old.listeners }
    {
        self.cuts.clear();
        hear_each(&mut self.all, events, &mut self.cuts);
    }

    /// What a client is handed out: all that pends for it, or its loss where nothing does. Where there is
    /// no memory nothing changes.
    pub fn take(&mut self, alloc: Global, client: u32) -> Result<Taken, NoMemory>
        requires registered { has_client self.old.listeners client ≡ true }
        ensures given { IfOk result (λ taken. HandsOut (listening_of self.old.listeners client) taken) }
        ensures ok { OnOk result (self.new.listeners ≡ taken_by self.old.listeners client) }
        ensures err { OnErr result (self.new.listeners ≡ self.old.listeners) }
        ensures due { self.new.due ≡ self.old.due }
    {
        match self.told_loss(client) {
            Some(count) => {
                self.leave(client);
                Ok(Taken::Lost(count))
            }
            None => {
                let events = self.pending(alloc, client)?;
                self.empty(client);
                Ok(Taken::Events(events))
            }
        }
    }

    /// Lets go of all that pends for a client, and then of a loss that is due. It takes no memory.
    pub fn drop_events(&mut self, client: u32)
        ensures listeners { self.new.listeners ≡ dropped_by self.old.listeners client }
        ensures due { self.new.due ≡ self.old.due }
    {
        if self.is_lost(client) {
            self.leave(client);
        } else {
            self.empty(client);
        }
    }

    /// The client's registration ends.
    #[tactic(auto, using(crate::proofs::Apart::apart_left))]
    pub fn leave(&mut self, client: u32)
        ensures listeners { self.new.listeners ≡ left_by self.old.listeners client }
        ensures due { self.new.due ≡ self.old.due }
    {
        remove_of(&mut self.all, client);
    }

    // All that pends for the client is taken.
    #[tactic(auto, using(crate::proofs::Apart::apart_emptied))]
    fn empty(&mut self, client: u32)
        ensures listeners { self.new.listeners ≡ emptied_by self.old.listeners client }
        ensures due { self.new.due ≡ self.old.due }
    {
        empty_of(&mut self.all, client);
    }

    fn find(&self, client: u32) -> Option<&Listener>
        ensures { option_map (λ it. it.now) result ≡ listening_of self.now.listeners client }
    {
        self.all.iter().find(|listener| listener.is_of(client))
    }

    // How many pended as the client's registration was cut, where nothing pends any more.
    fn told_loss(&self, client: u32) -> Option<u32>
        ensures { result ≡ loss_told (listening_of self.now.listeners client) }
    {
        match self.find(client) {
            Some(listener) if listener.tells_loss() => Some(listener.lost()),
            _ => None,
        }
    }

    fn is_lost(&self, client: u32) -> bool
        ensures { result ≡ is_lost (listening_of self.now.listeners client) }
    {
        self.find(client).is_some_and(|listener| listener.is_lost())
    }

    // Copies of what pends for the client.
    fn pending(&self, alloc: Global, client: u32) -> Result<ListOf<Transition>, NoMemory>
        ensures { IfOk result (λ events. events ≡ pending_of (listening_of self.now.listeners client)) }
    {
        match self.find(client) {
            Some(listener) => listener.pending(alloc),
            None => Ok(ListOf::new(alloc)),
        }
    }
}

// These transitions come for each of these; the cuts that are due come after the others.
fn hear_each(listeners: &mut Vec<Listener>, events: &[Transition], cuts: &mut Vec<Cut>)
    requires room { vec_len cuts.old + vec_len listeners.old ≤ vec_capacity cuts.old }
    ensures listeners { listeners.new.items ≡ map (hears events.now) listeners.old.items }
    ensures cuts { map cut_mark cuts.new.items ≡ map cut_mark cuts.old.items ++ cuts_due (map (with_pending events.now) (registrations listeners.old.items)) }
    ensures capacity { vec_capacity cuts.new ≡ vec_capacity cuts.old }
    ensures kept { vec_len listeners.new ≡ vec_len listeners.old }
{
    for listener in listeners.iter_mut() {
        if listener.hear(events) {
            cuts.push_reserved(listener.cut());
        }
    }
}

// Where the client's registration is.
fn place_of(all: &[Listener], client: u32) -> Option<usize>
    ensures { result ≡ position (is_of client) all.now }
{
    all.iter().position(|listener| listener.is_of(client))
}

// All that pends for the client is taken.
#[tactic(auto, using(crate::proofs::Places::emptied_at, crate::proofs::Places::none_emptied))]
fn empty_of(all: &mut Vec<Listener>, client: u32)
    ensures items { all.new.items ≡ emptied_by all.old.items client }
    ensures len { vec_len all.new ≡ vec_len all.old }
{
    if let Some(place) = place_of(all.as_slice(), client) {
        all[place].empty();
    }
}

// The client's registration is let go of.
#[tactic(auto, using(crate::proofs::Places::left_at, crate::proofs::Places::none_left))]
fn remove_of(all: &mut Vec<Listener>, client: u32)
    ensures items { all.new.items ≡ left_by all.old.items client }
    ensures len { vec_len all.new ≤ vec_len all.old }
{
    if let Some(place) = place_of(all.as_slice(), client) {
        drop(all.remove(place));
    }
}
