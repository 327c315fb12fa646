// Calls are run.
ghost use Rattle.std.specs.Prelude.{◌≡◌, ◌<◌, ◌+◌, ◌^◌, ℕ, List, Option, IfOk, OnErr, Ok, Err};
ghost use Rattle.procedure_spec.specs.Calls.{IsCall};
ghost use Rattle.procedure_spec.specs.Results.{result_shape};
ghost use Rattle.row_session.specs.Telling.{IsToldTo};
ghost use Rattle.service_spec.specs.Activities.{activity, hand};
ghost use Rattle.service_spec.specs.Calls.{IsTold};
ghost use Rattle.service_spec.specs.Reading.{read_of};
ghost use Rattle.service_spec.specs.Sayable.{IsSayable};
ghost use Rattle.session_spec.specs.Replies.{asks_to_close};

use crate::asking::read;
use crate::calls::{Calls, Runner, after};
use crate::refuse::unread;
use packet::Packet;
use remote_args::ArgFault;
use service_spec::Service;
use std::sync::Wait;
use virt_types::{Gate, NoMemory, OrNoMemory, Random, Reply, Request, Value, Who};

/// What a call is told.
#[derive(Drop)]
pub(crate) struct Told {
    /// What is said.
    pub(crate) said: Reply,
    /// Whether the session is over after it.
    pub(crate) closes: bool,
}

fn is_close(asked: &Request) -> bool
    ensures { result ≡ asks_to_close (Ok asked.now) }
{
    matches!(asked, Request::ConnectClose)
}

impl<'a, H: Wait, D: Service, T: Gate> Calls<'a, H, D, T> {
    // Does what is asked. A close needs nobody.
    fn ask<R: Random>(
        &self,
        row: D::Row,
        who: Who,
        asked: &Request,
        random: &mut R,
    ) -> (D::Row, Told)
        requires ready { D.is_ready self.now.service.now row }
        ensures told { IsTold D.has_called who asked.now result.1.said (hand row (R.drawn random.old)) (hand result.0 (R.drawn random.new)) }
        ensures closes { result.1.closes ≡ asks_to_close (Ok asked.now) }
        ensures sayable { IsSayable (result_shape asked.now) result.1.said }
        ensures still_ready { D.is_ready self.now.service.now result.0 }
    {
        if is_close(asked) {
            let told = Told {
                said: Reply::Ok(Value::Nothing),
                closes: true,
            };
            return (row, told);
        }
        let (row, said) = self.service.call(self.rt, row, who, asked, random);
        let told = Told {
            said,
            closes: false,
        };
        (row, told)
    }

    // Runs a call that asks this.
    fn run_asked<R: Random>(
        &self,
        runner: Runner<D::Row>,
        call: &Packet,
        asked: &Request,
        random: &mut R,
    ) -> (Runner<D::Row>, Told)
        requires ready { D.is_ready self.now.service.now runner.row }
        requires few { runner.next.count + 1 < 2 ^ 64 }
        requires found { IsCall call.now.header call.now.payload asked.now }
        requires read { read_of D.is_served call.now.header call.now.payload ≡ Ok asked.now }
        ensures told { IsToldTo D.is_served D.has_called call.now (activity runner.row (R.drawn random.old) runner.next)
            (activity result.0.row (R.drawn random.new) result.0.next) result.1 }
        ensures still_ready { D.is_ready self.now.service.now result.0.row }
    {
        let Runner { row, next } = runner;
        let (row, told) = self.ask(row, next, asked, random);
        let runner = Runner {
            row,
            next: after(next),
        };
        (runner, told)
    }

    // Refuses a call that asks nothing.
    fn refuse(
        &self,
        runner: Runner<D::Row>,
        call: &Packet,
        fault: ArgFault,
    ) -> (Runner<D::Row>, Result<Told, NoMemory>)
        requires few { runner.next.count + 1 < 2 ^ 64 }
        requires read { read_of D.is_served call.now.header call.now.payload ≡ Err fault }
        ensures told { (drawn : Option (List ℕ)) → IfOk result.1 (IsToldTo D.is_served D.has_called call.now (activity runner.row drawn runner.next)
            (activity result.0.row drawn result.0.next)) }
        ensures err { OnErr result.1 (result.0 ≡ runner) }
        ensures row { result.0.row ≡ runner.row }
    {
        match unread(self.alloc, &call.header, fault) {
            Ok(why) => {
                let Runner { row, next } = runner;
                let runner = Runner {
                    row,
                    next: after(next),
                };
                let told = Told {
                    said: Reply::No(why),
                    closes: false,
                };
                (runner, Ok(told))
            }
            Err(NoMemory) => (runner, Err(NoMemory)),
        }
    }

    /// Runs a call, unless there is no memory to read it.
    pub(crate) fn run<R: Random>(
        &self,
        runner: Runner<D::Row>,
        call: &Packet,
        random: &mut R,
    ) -> (Runner<D::Row>, Result<Told, NoMemory>)
        requires ready { D.is_ready self.now.service.now runner.row }
        requires few { runner.next.count + 1 < 2 ^ 64 }
        ensures told { IfOk result.1 (IsToldTo D.is_served D.has_called call.now (activity runner.row (R.drawn random.old) runner.next)
            (activity result.0.row (R.drawn random.new) result.0.next)) }
        ensures err { OnErr result.1 (activity result.0.row (R.drawn random.new) result.0.next ≡ activity runner.row (R.drawn random.old) runner.next) }
        ensures still_ready { D.is_ready self.now.service.now result.0.row }
    {
        match read(self.alloc, self.service, call) {
            Ok(asked) => {
                let (runner, told) = self.run_asked(runner, call, &asked, random);
                (runner, Ok(told))
            }
            Err(OrNoMemory::Fault(fault)) => self.refuse(runner, call, fault),
            Err(OrNoMemory::NoMemory) => (runner, Err(NoMemory)),
        }
    }
}
