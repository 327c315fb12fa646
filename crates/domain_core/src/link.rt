// The link of the guest that is there.
ghost use Rattle.std.specs.Prelude.{◌≡◌, None, Some, is_some, option_map};
ghost use Rattle.domain_core.specs.Linked.{ears_in, kept_link, killed_link, link_made, monitor_in, new_link, with_ears_of, with_monitor, without_ears, without_monitor};
ghost use Rattle.monitor_link.specs.Views.{ears_view, link_view, monitor_view};

use monitor_link::{Guests, Killer, Link};
use std::marker::Model;

/// The link of a guest: its monitor goes out with the ticket of the open call, its ears with a pass that hears. Contracts
/// see its boot, which of the two are here, and whose and what they are.
#[derive(Drop)]
pub struct Here<G: Guests> {
    boot: u64,
    monitor: Option<G::M>,
    ears: Option<G::E>,
    killer: G::Z,
}

impl<G: Guests> Model for Here<G> {
    ghost use Rattle.std.specs.Prelude.{option_map};
    ghost use Rattle.domain_core.specs.Linked.{Linked};
    ghost use Rattle.monitor_link.specs.Views.{ears_view, killer_view, monitor_view};

    ghost Value = { Linked };

    ghost view = { λ h. record { boot = h.boot; monitor = option_map (monitor_view G.M.Monitor) h.monitor; ears = option_map (ears_view G.E.Ears) h.ears; killer = killer_view G.Z.Killer h.killer } };
}

impl<G: Guests> Here<G> {
    // The link of a guest that was made now. Ears of its boot can't be out already; were they, they would be the ones.
    fn new(boot: u64, link: Link<G>, heard: Option<u64>) -> Here<G>
        ensures { Some result ≡ new_link (Some (link_view G.M.Monitor G.E.Ears G.Z.Killer link)) heard boot }
    {
        let Link {
            monitor,
            ears,
            killer,
        } = link;
        let ears = if heard == Some(boot) {
            None
        } else {
            Some(ears)
        };
        Here {
            boot,
            monitor: Some(monitor),
            ears,
            killer,
        }
    }
}

/// The link is dropped unless its guest is the one that is there.
pub fn keep<G: Guests>(link: &mut Option<Here<G>>, made: Option<u64>)
    ensures { link.new ≡ kept_link made link.old }
{
    let is_made = match &*link {
        Some(here) => made == Some(here.boot),
        None => true,
    };
    if !is_made {
        *link = None;
    }
}

// The link of a guest that was made now, if one was, where no link is here.
fn take_new<G: Guests>(
    link: &mut Option<Here<G>>,
    boot: u64,
    fresh: Option<Link<G>>,
    heard: Option<u64>,
)
    requires { link.old ≡ None }
    ensures { link.new ≡ new_link (option_map (link_view G.M.Monitor G.E.Ears G.Z.Killer) fresh) heard boot }
{
    match fresh {
        Some(fresh) => *link = Some(Here::new(boot, fresh, heard)),
        None => {}
    }
}

/// The link of the guest that is there after an answer: the one that is here, or else the one that was made now.
pub fn keep_or_take<G: Guests>(
    link: &mut Option<Here<G>>,
    made: Option<u64>,
    fresh: Option<Link<G>>,
    heard: Option<u64>,
)
    ensures { link.new ≡ link_made (option_map (link_view G.M.Monitor G.E.Ears G.Z.Killer) fresh) heard made link.old }
{
    keep(link, made);
    match made {
        Some(boot) if link.is_none() => take_new(link, boot, fresh, heard),
        _ => {}
    }
}

/// The monitor goes out.
pub fn take_monitor<G: Guests>(link: &mut Option<Here<G>>) -> Option<G::M>
    ensures monitor { option_map (monitor_view G.M.Monitor) result ≡ monitor_in link.old }
    ensures link { link.new ≡ without_monitor link.old }
{
    match link {
        Some(here) => here.monitor.take(),
        None => None,
    }
}

/// A monitor that was out comes back, where its guest is there still.
pub fn put_monitor<G: Guests>(link: &mut Option<Here<G>>, out: Option<u64>, monitor: Option<G::M>)
    requires { is_some monitor ≡ is_some out }
    ensures { link.new ≡ with_monitor out (option_map (monitor_view G.M.Monitor) monitor) link.old }
{
    if let (Some(here), Some(boot)) = (link, out) {
        if here.boot == boot {
            here.monitor = monitor;
        }
    }
}

/// The ears go out.
pub fn take_ears<G: Guests>(link: &mut Option<Here<G>>) -> Option<G::E>
    ensures ears { option_map (ears_view G.E.Ears) result ≡ ears_in link.old }
    ensures link { link.new ≡ without_ears link.old }
{
    match link {
        Some(here) => here.ears.take(),
        None => None,
    }
}

/// The ears of this boot come back, where its guest is there still.
pub fn put_ears<G: Guests>(link: &mut Option<Here<G>>, boot: u64, ears: G::E)
    ensures { link.new ≡ with_ears_of boot (ears_view G.E.Ears ears) link.old }
{
    if let Some(here) = link {
        if here.boot == boot {
            here.ears = Some(ears);
        }
    }
}

/// The guest is ended without being asked.
pub fn kill<G: Guests>(link: &mut Option<Here<G>>)
    ensures { link.new ≡ killed_link link.old }
{
    if let Some(here) = link {
        here.killer.kill();
    }
}
