// What is said of what the driver answers.
ghost use Rattle.std.specs.Prelude.{◌≡◌, ◌↔◌, IsTrue};
ghost use Rattle.procedure_spec.specs.Results.{result_shape as shape_of};
ghost use Rattle.service_spec.specs.Sayable.{IsSayable};
ghost use Rattle.driver_service.specs.Saying.{IsSaid};

use procedure_spec::result_shape;
use refusals::no_memory;
use result_forms::has_shape;
use std::alloc::Global;
use virt_types::{MOST_KEPT_BYTES, Reply, Request};

// Whether a reply has the form of what the request's procedure replies.
fn is_sayable(request: &Request, reply: &Reply) -> bool
    ensures { IsTrue result ↔ IsSayable (shape_of request.now) reply.now }
{
    match reply {
        Reply::Ok(value) => has_shape(value, result_shape(request)),
        Reply::No(why) => why.kept.as_str().len() <= MOST_KEPT_BYTES,
    }
}

/// The reply; of one that has not the form of its procedure's results it is said that there was no memory.
pub(crate) fn said(alloc: Global, request: &Request, reply: Reply) -> Reply
    ensures said { IsSaid request.now reply result }
    ensures sayable { IsSayable (shape_of request.now) result }
{
    if is_sayable(request, &reply) {
        return reply;
    }
    no_memory(alloc)
}
