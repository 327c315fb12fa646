// One connection.
ghost use Rattle.std.specs.Prelude.{◌≡◌, ◌≤◌};
ghost use Rattle.outside_spec.specs.Faults.{Rose};
ghost use Rattle.service_spec.specs.Activities.{hand};
ghost use Rattle.service_spec.specs.Course.{HasServed};
ghost use Rattle.session_spec.specs.Course.{IsServedWhole, IsWhole};

use crate::calls::{Calls, Runner};
use packet::{Sink, Source};
use service_spec::{READER, Service};
use session_spec::End;
use std::alloc::Global;
use std::sync::Wait;
use virt_types::{Gate, Random, Who};

/// Six rows, as many as one session takes. It runs its calls with the fifth, one after the other; the sixth is for its
/// registrations, and the others are for calls that are run beside these.
#[derive(Drop)]
pub struct SixRows<W> {
    /// Of the first lane.
    pub first: W,
    /// Of the second.
    pub second: W,
    /// Of the third.
    pub third: W,
    /// Of the fourth.
    pub fourth: W,
    /// Of the activity that reads.
    pub fifth: W,
    /// Of registrations.
    pub sixth: W,
}

// Serves one connection with one row.
fn serve_by<'a, H: Wait, D: Service, T: Gate, S: Source, K: Sink, R: Random>(
    calls: &Calls<'a, H, D, T>,
    row: D::Row,
    session: u64,
    source: &mut S,
    sink: &mut K,
    random: &mut R,
) -> (D::Row, End)
    requires ready { D.is_ready calls.now.service.now row }
    ensures served { HasServed D.is_served D.has_called session (hand row (R.drawn random.old)) (S.left source.old) (S.left source.new)
        (K.held sink.old) (K.held sink.new) result.1 (hand result.0 (R.drawn random.new)) }
    ensures source_count { S.faults source.old ≤ S.faults source.new }
    ensures sink_count { K.faults sink.old ≤ K.faults sink.new }
    ensures source_fault { result.1 ≡ End.SourceFault → Rose (S.faults source.old) (S.faults source.new) }
    ensures sink_fault { result.1 ≡ End.SinkFault → Rose (K.faults sink.old) (K.faults sink.new) }
    ensures still_ready { D.is_ready calls.now.service.now result.0 }
{
    let next = Who {
        session,
        lane: READER,
        count: 0,
    };
    let (runner, end) = calls.serve_all(Runner { row, next }, source, sink, random);
    let Runner { row, next: _ } = runner;
    (row, end)
}

/// Serves one connection: each call that comes has one reply, put into the sink in the order of the calls, each PING a
/// PONG, and every other packet is passed over. Calls are run one after the other, with the fifth row. A call of
/// CONNECT_CLOSE that was answered is the last, and after 2^62 bytes the input counts as over. It gives back the rows and
/// the sink, and says how the session ended. The gate is at 1 before each call, and at 2 once its message was put.
pub fn serve<H: Wait, D: Service, S: Source, K: Sink, R: Random, T: Gate>(
    rt: &H,
    alloc: Global,
    service: &D,
    rows: SixRows<D::Row>,
    session: u64,
    source: &mut S,
    mut sink: K,
    random: &mut R,
    gate: &T,
) -> (SixRows<D::Row>, K, End)
    requires ready { D.is_ready service.now rows.fifth }
    ensures served { HasServed D.is_served D.has_called session (hand rows.fifth (R.drawn random.old)) (S.left source.old) (S.left source.new)
        (K.held sink) (K.held result.1) result.2 (hand result.0.fifth (R.drawn random.new)) }
    ensures others { result.0 ≡ record rows { fifth = result.0.fifth } }
    ensures still_ready { D.is_ready service.now result.0.fifth }
    ensures source_count { S.faults source.old ≤ S.faults source.new }
    ensures sink_count { K.faults sink ≤ K.faults result.1 }
    ensures source_fault { result.2 ≡ End.SourceFault → Rose (S.faults source.old) (S.faults source.new) }
    ensures sink_fault { result.2 ≡ End.SinkFault → Rose (K.faults sink) (K.faults result.1) }
    // Whole packets are served whole where nothing of the outside failed, and so is a session that was closed, whatever
    // follows.
    ensures complete { IsWhole (S.left source.old) → ¬ Rose (S.faults source.old) (S.faults source.new)
        → ¬ Rose (K.faults sink) (K.faults result.1) → IsServedWhole result.2 }
{
    let SixRows {
        first,
        second,
        third,
        fourth,
        fifth,
        sixth,
    } = rows;
    let calls = Calls {
        rt,
        alloc,
        service,
        gate,
    };
    let (fifth, end) = serve_by(&calls, fifth, session, source, &mut sink, random);
    let rows = SixRows {
        first,
        second,
        third,
        fourth,
        fifth,
        sixth,
    };
    (rows, sink, end)
}
