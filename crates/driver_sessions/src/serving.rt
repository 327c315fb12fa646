// Sessions are served, each in a thread of its own.
ghost use Rattle.std.specs.Prelude.{◌≡◌, ◌≤◌, ◌*◌, [], IfOk, IfSome, length, vec_len};
ghost use Rattle.std.specs.List.{All, AllZip};
ghost use Rattle.std.specs.Vec.{vec_capacity};
ghost use Rattle.driver_crossing.specs.Below.driver.Cells.{IsRowOf};
ghost use Rattle.driver_crossing.specs.Below.held_tasks.OfRows.{IsReadyRow, KeepsParts};
ghost use Rattle.driver_sessions.specs.Serving.{AreServed, IsServed, MayServe};

use crate::seats::{DriverRows, Seated, seat_all, unseat_all};
use crate::session::{Served, Session};
use def_keeper::Opening;
use driver_crossing::{Driver, DriverService, ThreadGuests};
use files_disk::Files;
use monitor_link::Guests;
use packet::{Sink, Source};
use six_rows::serve;
use std::alloc::{AllocError, Global};
use std::sync::Wait;
use std::thread::Threads;
use virt_types::{Gate, Random};
use work_threads::{Work, do_all};

// Serves one session.
fn serve_one<
    R: Wait,
    F: Files + Drop,
    K: Opening,
    G: Guests + Drop,
    S: Source,
    O: Sink,
    N: Random,
    T: Gate,
>(
    rt: &R,
    driver: &Driver<F, K, G>,
    one: Seated<F, K, G, Session<S, O, N, T>>,
) -> Seated<F, K, G, Served<S, O, N, T>>
    requires { MayServe driver.now one.rows }
    ensures { IsServed F.told F.faults G.faults G.E.ends G.E.faults G.E.unheard S.left S.faults O.held O.faults N.drawn driver.now one result }
{
    let Seated { rows, holder } = one;
    let Session {
        alloc,
        number,
        mut source,
        sink,
        mut random,
        gate,
    } = holder;
    let service = DriverService { alloc, driver };
    let (rows, sink, end) = serve(
        rt,
        alloc,
        &service,
        rows,
        number,
        &mut source,
        sink,
        &mut random,
        &gate,
    );
    let session = Session {
        alloc,
        number,
        source,
        sink,
        random,
        gate,
    };
    Seated {
        rows,
        holder: Served { session, end },
    }
}

impl<F: Files + Drop, K: Opening, G: Guests + Drop, S: Source, O: Sink, N: Random, T: Gate> Work<
    Driver<F, K, G>,
    Seated<F, K, G, Served<S, O, N, T>>,
> for Seated<F, K, G, Session<S, O, N, T>> {
    ghost use Rattle.driver_sessions.specs.Serving.{IsServed, MayServe};

    ghost may_do = { λ d one. MayServe d one.rows };

    ghost has_done = { IsServed F.told F.faults G.faults G.E.ends G.E.faults G.E.unheard S.left S.faults O.held O.faults N.drawn };

    // Serves the session.
    fn done<R: Wait>(
        self,
        rt: &R,
        shared: &Driver<F, K, G>,
    ) -> Seated<F, K, G, Served<S, O, N, T>> {
        serve_one(rt, shared, self)
    }
}

// All are served at once. They come back in order.
fn serve_seated<
    R: Threads + Wait + Sync,
    F: Files + Drop + Send,
    K: Opening + Send + Sync,
    G: ThreadGuests + Drop + Send,
    S: Source + Drop + Send,
    O: Sink + Drop + Send,
    N: Random + Drop + Send,
    T: Gate + Drop + Send,
>(
    rt: &R,
    driver: &Driver<F, K, G>,
    all: Vec<Seated<F, K, G, Session<S, O, N, T>>>,
) -> Result<Vec<Seated<F, K, G, Served<S, O, N, T>>>, AllocError>
    requires { All (λ one. MayServe driver.now one.rows) all.items }
    ensures { IfOk result (λ over. AllZip (IsServed F.told F.faults G.faults G.E.ends G.E.faults G.E.unheard S.left S.faults O.held O.faults N.drawn driver.now) all.items over.items) }
{
    do_all(rt, driver, all)
}

// Room for so many.
fn room_for<X>(alloc: Global, count: usize) -> Option<Vec<X>>
    ensures none { IfSome result (λ room. room.items ≡ []) }
    ensures room { IfSome result (λ room. count ≤ vec_capacity room) }
{
    match Vec::with_capacity(alloc, count) {
        Ok(room) => Some(room),
        Err(_) => None,
    }
}

/// Serves all sessions at once, each in a thread of its own and by six of these rows; the first has the first six. The rows
/// come back in order, and so do the sessions. None where there is no memory. A session that never comes to an end keeps
/// the others from coming back.
pub fn serve_all<
    R: Threads + Wait + Sync,
    F: Files + Drop + Send,
    K: Opening + Send + Sync,
    G: ThreadGuests + Drop + Send,
    S: Source + Drop + Send,
    O: Sink + Drop + Send,
    N: Random + Drop + Send,
    T: Gate + Drop + Send,
>(
    rt: &R,
    alloc: Global,
    driver: &Driver<F, K, G>,
    rows: DriverRows<F, K, G>,
    sessions: Vec<Session<S, O, N, T>>,
) -> Option<(DriverRows<F, K, G>, Vec<Served<S, O, N, T>>)>
    requires six_each { length rows.list ≡ 6 * vec_len sessions }
    requires own { All (IsRowOf driver.now) rows.list }
    requires ready { All IsReadyRow rows.list }
    ensures served { IfSome result (λ r. AreServed F.told F.faults G.faults G.E.ends G.E.faults G.E.unheard S.left S.faults O.held O.faults N.drawn driver.now
        rows.list sessions.items r.0.list r.1.items) }
    ensures parts { IfSome result (λ r. AllZip KeepsParts rows.list r.0.list) }
    ensures own { IfSome result (λ r. All (IsRowOf driver.now) r.0.list) }
    ensures ready { IfSome result (λ r. All IsReadyRow r.0.list) }
{
    let count = sessions.len();
    let seats = room_for(alloc, count)?;
    let room = room_for(alloc, count)?;
    let (rows, seated) = seat_all(rows, sessions, seats);
    match serve_seated(rt, driver, seated) {
        Ok(over) => Some(unseat_all(rows, over, room)),
        Err(_) => None,
    }
}
