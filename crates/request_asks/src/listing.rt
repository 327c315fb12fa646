// Requests that list names.
ghost use Rattle.std.specs.Prelude.{◌≡◌, []};
ghost use Rattle.session_spec.specs.Bounds.{passed};
ghost use Rattle.virt_types.specs.declared.request.Request.TheVariants as request;
ghost use Rattle.request_asks.specs.Said.{IsSaid};

use crate::asked::{Asked, Listing};
use crate::refusing::refuse_number;
use procedure_spec::NAMES_BOUND;
use std::alloc::Global;

// The bound of 0 and the most names that a number passes.
fn passed(most: i32) -> Option<u32>
    ensures { result ≡ passed most }
{
    if most < 0 {
        Some(0)
    } else if most > NAMES_BOUND as i32 {
        Some(NAMES_BOUND)
    } else {
        None
    }
}

/// CONNECT_LIST_DEFINED_DOMAINS.
pub(crate) fn list_names(alloc: Global, most: i32) -> Asked
    ensures { IsSaid [] (request.ListDefinedDomains most) result }
{
    match passed(most) {
        None => Asked::List(Listing::Idle { most }),
        Some(bound) => Asked::refused(refuse_number(alloc, most, bound)),
    }
}
