// Where a call over a domain left its last mark, and what its pass has seen.
ghost use Rattle.std.specs.Prelude.{◌≡◌, IfSome};
ghost use Rattle.domain_obj.specs.Places.{place_or, seen_by};

use crate::{Hushed, Seen};
use virt_types::Front;

/// Where a call over a domain left its last mark, and what its pass has seen of the domain. It speaks of a pass for which
/// tickets are left.
#[derive(Clone, Copy, Debug, PartialEq, Eq)]
pub struct At {
    /// The place of the call's last mark; where it left none, how far the history goes that the pass has seen.
    pub place: Front,
    /// How far the history goes that the pass has seen.
    pub seen: Front,
    /// Whether there was a domain, or an operation rested, by then.
    pub occupied: bool,
}

// Of a pass that has seen nothing, since no ticket was left for it.
const NOWHERE: Front = Front {
    chapter: 0,
    marks: 0,
};

/// The place of the last mark, or how far the pass has seen.
pub(crate) fn place_at(place: Option<Front>, seen: Option<Seen>) -> At
    ensures place { result.place ≡ place_or place result.seen }
    ensures seen { IfSome seen (λ s. (result.seen ≡ s.front) × (result.occupied ≡ s.occupied)) }
{
    let (seen, occupied) = match seen {
        Some(seen) => (seen.front, seen.occupied),
        None => (NOWHERE, true),
    };
    At {
        place: place.unwrap_or(seen),
        seen,
        occupied,
    }
}

/// What the pass has seen that heard so; none where no ticket was left.
pub(crate) fn seen_by(hushed: Hushed) -> Option<Seen>
    ensures { result ≡ seen_by hushed }
{
    match hushed {
        Hushed::Quiet(seen) => Some(seen),
        Hushed::NoMemory(seen) => Some(seen),
        Hushed::Unheard(seen) => Some(seen),
        Hushed::Often(seen) => Some(seen),
        Hushed::Spent => None,
    }
}
