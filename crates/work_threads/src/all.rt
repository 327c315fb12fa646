// Pieces of work are done, each in a thread of its own.
ghost use Rattle.std.specs.Prelude.{IfOk};
ghost use Rattle.std.specs.List.{All, AllZip};

use crate::work::Work;
use std::alloc::AllocError;
use std::sync::Wait;
use std::thread::{Threads, map_vec};

/// Does all pieces of work at once, each in a thread of its own where one can be made. What is left of them comes back in
/// order. Where there is no memory some may not have been done, and nothing comes back.
pub fn do_all<R: Threads + Wait + Sync, C: Sync, J: Work<C, X> + Drop + Send, X: Drop + Send>(
    rt: &R,
    shared: &C,
    all: Vec<J>,
) -> Result<Vec<X>, AllocError>
    requires { All (J.may_do shared.now) all.items }
    ensures { IfOk result (λ left. AllZip (J.has_done shared.now) all.items left.items) }
{
    map_vec(
        rt,
        all,
        &|one: J| -> X
            requires { J.may_do shared.now one }
            ensures { J.has_done shared.entry.now one result }
        { one.done(rt, shared) },
    )
}
