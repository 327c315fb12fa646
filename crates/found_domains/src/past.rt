// How many definitions are served.
ghost use Rattle.std.specs.Prelude.{◌≡◌};
ghost use Rattle.store_spec.specs.Changes.{same_kind};
ghost use Rattle.found_domains.specs.Found as spec;

use def_keeper::FoundDefinition;
use store_spec::BookKind;
use types_base::MOST_DOMAINS;

// The most networks, and the most pools, that a daemon holds.
const MOST_OTHERS: usize = 64;

fn same_kind(one: BookKind, other: BookKind) -> bool
    ensures { result ≡ same_kind one other }
{
    one == other
}

fn most_of(kind: BookKind) -> usize
    ensures { result ≡ spec.most_of kind }
{
    match kind {
        BookKind::Domain => MOST_DOMAINS,
        BookKind::Network | BookKind::Pool => MOST_OTHERS,
    }
}

// The first definition past the most of a kind.
#[tactic(auto, unfolding(crate::specs::Found::past))]
fn past(kind: BookKind, rows: &[FoundDefinition]) -> Option<FoundDefinition>
    ensures { result ≡ spec.past kind rows.now }
{
    let mut left = most_of(kind);
    for row in rows {
        if same_kind(row.kind, kind) {
            if left == 0 {
                return Some(*row);
            }
            left -= 1;
        }
    }
    None
}

/// The first definition past the most of its kind: of domains first, as their files' names are.
pub(crate) fn first_past(rows: &[FoundDefinition]) -> Option<FoundDefinition>
    ensures { result ≡ spec.first_past rows.now }
{
    match past(BookKind::Domain, rows) {
        Some(row) => Some(row),
        None => match past(BookKind::Network, rows) {
            Some(row) => Some(row),
            None => past(BookKind::Pool, rows),
        },
    }
}
