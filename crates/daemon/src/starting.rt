// The first requests of a daemon.
ghost use Rattle.std.specs.Prelude.{◌≡◌, ◌≤◌, [], IfOk, length};
ghost use Rattle.std.specs.Vec.{vec_capacity};
ghost use Rattle.daemon.specs.Starting.{HasMade, first_call};
ghost use Rattle.driver_service.specs.Below.driver.Cells.{IsRowOf};
ghost use Rattle.driver_service.specs.Below.held_tasks.OfRows.{IsReadyRow, KeepsParts};
ghost use Rattle.service_spec.specs.Activities.{hand};

use crate::daemon::DaemonRow;
use def_keeper::Opening;
use driver_service::{Driver, Outcome};
use files_disk::Files;
use monitor_link::Guests;
use service_spec::READER;
use std::alloc::Global;
use std::sync::Wait;
use virt_types::{NoMemory, Random, Request, Who};

/// The session that makes the first requests.
const FIRST_SESSION: u64 = 0;

/// What requests came to, in order.
pub type Outcomes = Vec<Outcome>;

/// Room for so many outcomes.
pub(crate) fn room_for(alloc: Global, count: usize) -> Result<Outcomes, NoMemory>
    ensures empty { IfOk result (λ room. room.items ≡ []) }
    ensures room { IfOk result (λ room. count ≤ vec_capacity room) }
{
    match Vec::with_capacity(alloc, count) {
        Ok(room) => Ok(room),
        Err(_) => Err(NoMemory),
    }
}

/// Makes these requests with a row, one after the other.
pub(crate) fn make_all<H: Wait, R: Random, F: Files + Drop, K: Opening, G: Guests + Drop>(
    rt: &H,
    driver: &Driver<F, K, G>,
    row: DaemonRow<F, K, G>,
    requests: &[Request],
    random: &mut R,
    room: Outcomes,
) -> (DaemonRow<F, K, G>, Outcomes)
    requires own { IsRowOf driver.now row }
    requires ready { IsReadyRow row }
    requires empty { room.items ≡ [] }
    requires room { length requests.now ≤ vec_capacity room }
    ensures made { HasMade F.told F.faults G.faults G.E.ends G.E.faults G.E.unheard (first_call 0) requests.now result.1.items
        (hand row (R.drawn random.old)) (hand result.0 (R.drawn random.new)) }
    ensures parts { KeepsParts row result.0 }
    ensures own { IsRowOf driver.now result.0 }
    ensures ready { IsReadyRow result.0 }
{
    let mut row = row;
    let mut outcomes = room;
    for request in requests {
        let who = Who {
            session: FIRST_SESSION,
            lane: READER,
            count: outcomes.len() as u64,
        };
        let (then, outcome) = driver.call(rt, row, who, request, random);
        row = then;
        outcomes.push_reserved(outcome);
    }
    (row, outcomes)
}
