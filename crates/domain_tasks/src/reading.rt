// A query of a domain.
ghost use Rattle.std.specs.Prelude.{◌≡◌, IfSome};
ghost use Rattle.domain_tasks.specs.Serving.{HasRead};
ghost use Rattle.domain_tasks.specs.Telling.{TellsQueried, front_by, seen_by};

use crate::telling::spent;
use domain_obj::{DomainObj, DomainPass, Queried, Seen, no_memory};
use monitor_link::Guests;
use std::alloc::Global;
use std::sync::Wait;
use virt_types::{Front, Query, Reply};

/// What is told of a domain of which nothing was seen.
pub const UNSEEN: Seen = Seen {
    front: Front {
        chapter: 0,
        marks: 0,
    },
    occupied: true,
};

// What is said of a query, how far the history went where it was read, and what the pass saw there.
fn told_of_query(alloc: Global, came: Queried) -> (Reply, Option<Front>, Seen)
    ensures tells { TellsQueried came result.0 }
    ensures at { result.1 ≡ front_by came }
    ensures sees { IfSome (seen_by came) (λ s. result.2 ≡ s) }
{
    match came {
        Queried::Read(reply, seen) => (reply, Some(seen.front), seen),
        Queried::NoMemory(seen) => (no_memory(alloc), Some(seen.front), seen),
        Queried::Spent => (spent(alloc), None, UNSEEN),
    }
}

/// A query takes a turn, and reads. With what is said of it, where it was read, and what the pass saw there.
pub fn read<G: Guests, R: Wait>(
    rt: &R,
    alloc: Global,
    domain: &DomainObj<G>,
    pass: DomainPass<G>,
    query: &Query,
) -> (DomainPass<G>, Reply, Option<Front>, Seen)
    requires own { pass.cell ≡ domain.now }
    ensures { HasRead query.now pass result.0 result.1 result.2 result.3 }
{
    let (pass, came) = domain.query(rt, alloc, pass, query);
    let (said, place, seen) = told_of_query(alloc, came);
    (pass, said, place, seen)
}
