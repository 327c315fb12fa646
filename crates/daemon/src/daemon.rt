// A daemon: its driver, and the row of the first passes.
ghost use Rattle.std.specs.Prelude.{◌≡◌, ◌≤◌, ◌∷◌, [], IfErr, IfOk, OnErr};
ghost use Rattle.daemon.specs.Closing.{IsEndedWith};
ghost use Rattle.daemon.specs.Serving.{HasServedOne};
ghost use Rattle.daemon.specs.Starting.{HasMade, first_call};
ghost use Rattle.def_keeper.specs.Opened.{IsSureAt};
ghost use Rattle.driver_service.specs.Below.driver_close.OfOpening.{HasCells, IsUnopened};
ghost use Rattle.outside_spec.specs.Faults.{Rose};
ghost use Rattle.service_spec.specs.Activities.{hand};
ghost use Rattle.session_spec.specs.Course.{IsServedWhole, IsWhole};

use crate::closing::{Closed, close};
use crate::starting::{Outcomes, make_all, room_for};
use def_keeper::Opening;
use driver_service::{Driver, DriverFault, DriverService, Row, RowList};
use files_disk::Files;
use monitor_link::Guests;
use packet::{Sink, Source};
use pass_rows::RowListOf;
use six_rows::{End, put_six, serve, take_six};
use std::alloc::Global;
use std::marker::Model;
use std::sync::Wait;
use virt_types::{Gate, ListOf, NoMemory, OrNoMemory, Random, Request, RequestList, Status};

/// A row of a daemon's driver.
pub type DaemonRow<F, K, G> = Row<F, K, G>;

/// Rows of it, with room for more.
pub type DaemonRows<F, K, G> = RowList<F, K, G>;

/// A daemon that serves nobody yet. Contracts see its driver, and the row with which it calls the driver.
#[derive(Drop)]
pub struct Daemon<F: Files + Drop, K: Opening, G: Guests + Drop> {
    alloc: Global,
    driver: Driver<F, K, G>,
    row: DaemonRow<F, K, G>,
    room: DaemonRows<F, K, G>,
}

impl<F: Files + Drop, K: Opening, G: Guests + Drop> Model for Daemon<F, K, G> {
    ghost use Rattle.std.specs.Prelude.{◌≡◌, ◌≤◌, ◌∷◌, []};
    ghost use Rattle.daemon.specs.Daemon.{DaemonView};
    ghost use Rattle.driver_service.specs.Below.driver.Cells.{IsRowOf};
    ghost use Rattle.driver_service.specs.Below.driver_close.Closed.{IsWhole};
    ghost use Rattle.driver_service.specs.Below.held_tasks.OfRows.{IsReadyRow};

    ghost Value = { DaemonView G };

    ghost view = { λ d. record { driver = d.driver; row = d.row } };

    ghost invariant = { λ d. IsRowOf d.driver d.row × IsReadyRow d.row × IsWhole (d.row ∷ []) × (d.room.list ≡ []) × (1 ≤ d.room.room) };
}

/// How a connection ended, and what is left of the daemon.
#[derive(Drop)]
pub struct Ended<F, O> {
    /// The sink of the connection.
    pub sink: O,
    /// How the session ended.
    pub end: End,
    /// What is left of the daemon. None where a pass of its rows has no ticket left: then it can't be closed.
    pub closed: Option<Closed<F>>,
}

/// How many rows a connection takes.
const ROWS: u32 = 6;

impl<F: Files + Drop, K: Opening, G: Guests + Drop> Daemon<F, K, G> {
    /// Opens a daemon on the directory of these files. Where it is not opened, the files come back.
    pub fn open(
        alloc: Global,
        files: F,
        guests: G,
    ) -> Result<Daemon<F, K, G>, (F, OrNoMemory<DriverFault>)>
        requires sound { K.sound → IsSureAt (F.told files) }
        ensures ok { IfOk result (λ d. HasCells F.told files d.row d.driver.starts d.driver.statuses) }
        ensures maker { IfOk result (λ d. d.row.guests ≡ guests) }
        ensures err { IfErr result (λ e. IsUnopened F.told F.faults K.sound files e.1 e.0) }
    {
        let room = match RowListOf::with_room(alloc, 1) {
            Ok(room) => room,
            Err(NoMemory) => return Err((files, OrNoMemory::NoMemory)),
        };
        match Driver::open(alloc, files, guests) {
            Ok((driver, row)) => Ok(Daemon {
                alloc,
                driver,
                row,
                room,
            }),
            Err((files, _, fault)) => Err((files, fault)),
        }
    }

    /// The requests that start the domains which the store says are to be started, by rising name.
    pub fn found(&self) -> &RequestList
        ensures { result.now ≡ self.now.driver.starts }
    {
        self.driver.found()
    }

    /// What each status file said as the daemon was opened; none where one said nothing.
    pub fn statuses(&self) -> &ListOf<Option<Status>>
        ensures { result.now ≡ self.now.driver.statuses }
    {
        self.driver.statuses()
    }

    /// Makes these requests one after the other, as session 0, and says what each came to. Where there is no memory for that
    /// none is made.
    pub fn make<H: Wait, R: Random>(
        self,
        rt: &H,
        requests: &[Request],
        random: &mut R,
    ) -> (Daemon<F, K, G>, Result<Outcomes, NoMemory>)
        ensures driver { result.0.driver ≡ self.driver }
        ensures made { IfOk result.1 (λ outcomes. HasMade F.told F.faults G.faults G.E.ends G.E.faults G.E.unheard (first_call 0) requests.now outcomes.items
            (hand self.row (R.drawn random.old)) (hand result.0.row (R.drawn random.new))) }
        ensures none { OnErr result.1 (hand result.0.row (R.drawn random.new) ≡ hand self.row (R.drawn random.old)) }
    {
        let room = match room_for(self.alloc, requests.len()) {
            Ok(room) => room,
            Err(NoMemory) => return (self, Err(NoMemory)),
        };
        let Daemon {
            alloc,
            driver,
            row,
            room: rows,
        } = self;
        let (row, outcomes) = make_all(rt, &driver, row, requests, random, room);
        let daemon = Daemon {
            alloc,
            driver,
            row,
            room: rows,
        };
        (daemon, Ok(outcomes))
    }

    /// Starts the domains which the store says are to be started, by rising name, as session 0, and says what each start came
    /// to. Where there is no memory for that none is started.
    pub fn start<H: Wait, R: Random>(
        self,
        rt: &H,
        random: &mut R,
    ) -> (Daemon<F, K, G>, Result<Outcomes, NoMemory>)
        ensures driver { result.0.driver ≡ self.driver }
        ensures made { IfOk result.1 (λ outcomes. HasMade F.told F.faults G.faults G.E.ends G.E.faults G.E.unheard (first_call 0) self.driver.starts outcomes.items
            (hand self.row (R.drawn random.old)) (hand result.0.row (R.drawn random.new))) }
        ensures none { OnErr result.1 (hand result.0.row (R.drawn random.new) ≡ hand self.row (R.drawn random.old)) }
    {
        let room = match room_for(self.alloc, self.driver.found().len()) {
            Ok(room) => room,
            Err(NoMemory) => return (self, Err(NoMemory)),
        };
        let Daemon {
            alloc,
            driver,
            row,
            room: rows,
        } = self;
        let (row, outcomes) = make_all(rt, &driver, row, driver.found().as_slice(), random, room);
        let daemon = Daemon {
            alloc,
            driver,
            row,
            room: rows,
        };
        (daemon, Ok(outcomes))
    }

    /// Closes the daemon. None exactly where a pass of its row has no ticket left.
    pub fn close(self) -> Option<Closed<F>>
        ensures { IsEndedWith F.told K.sound (self.row ∷ []) result }
    {
        let Daemon {
            alloc: _,
            driver,
            row,
            mut room,
        } = self;
        room.push(row);
        close(driver, room)
    }

    /// Serves one connection as this session, and closes the daemon. The gate is at 1 before each call, and at 2 once its
    /// message was put.
    pub fn serve<H: Wait, S: Source, O: Sink, R: Random, T: Gate>(
        self,
        rt: &H,
        session: u64,
        source: &mut S,
        sink: O,
        random: &mut R,
        gate: &T,
    ) -> Ended<F, O>
        ensures served { HasServedOne F.told K.sound F.faults G.faults G.E.ends G.E.faults G.E.unheard session self.row
            (record { left = S.left source.old; held = O.held sink; drawn = R.drawn random.old })
            (record { left = S.left source.new; held = O.held result.sink; drawn = R.drawn random.new }) result.end result.closed }
        ensures source_count { S.faults source.old ≤ S.faults source.new }
        ensures sink_count { O.faults sink ≤ O.faults result.sink }
        ensures source_fault { result.end ≡ End.SourceFault → Rose (S.faults source.old) (S.faults source.new) }
        ensures sink_fault { result.end ≡ End.SinkFault → Rose (O.faults sink) (O.faults result.sink) }
        // Whole packets are served whole where nothing of the outside failed.
        ensures complete { IsWhole (S.left source.old) → ¬ Rose (S.faults source.old) (S.faults source.new)
            → ¬ Rose (O.faults sink) (O.faults result.sink) → IsServedWhole result.end }
    {
        let Daemon {
            alloc,
            driver,
            row,
            mut room,
        } = self;
        let mut rows = match driver.more(row, ROWS) {
            Ok(rows) => rows,
            Err((row, NoMemory)) => {
                room.push(row);
                return Ended {
                    sink,
                    end: End::NoMemory,
                    closed: close(driver, room),
                };
            }
        };
        let six = take_six(&mut rows);
        let service = DriverService {
            alloc,
            driver: &driver,
        };
        let (six, sink, end) = serve(
            rt, alloc, &service, six, session, source, sink, random, gate,
        );
        put_six(&mut rows, six);
        Ended {
            sink,
            end,
            closed: close(driver, rows),
        }
    }
}
