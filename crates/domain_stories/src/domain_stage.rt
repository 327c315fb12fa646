// A domain is a stage.
ghost use Rattle.std.specs.Prelude.{◌≡◌, ◌<◌, is_some};
ghost use Rattle.domain_spec.specs.Call.{begins};
ghost use Rattle.domain_stories.specs.Free.{IsPartOf};
ghost use Rattle.domain_stories.specs.Home.{IsHome};

use crate::stage::{Home, Stage};
use domain_threads::{Chronicle, Desk, DomainObj, DomainPass, Hushed, Queried};
use monitor_link::Guests;
use std::alloc::Global;
use std::sync::Wait;
use virt_types::{Call, Query, Reply, Who};

// Whether a call begins an operation.
fn does_begin(call: &Call) -> bool
    ensures { result ≡ is_some (begins call.now) }
{
    match call {
        Call::Start => true,
        Call::Create(_) => true,
        Call::Restore { .. } => true,
        Call::Save(_) => true,
        Call::Dump(_) => true,
        Call::Snapshot(_) => true,
        Call::Revert(_) => true,
        Call::Perform => true,
        Call::Prepare { .. } => true,
        _ => false,
    }
}

impl<G: Guests, D: Desk<G>> Stage<D> for DomainObj<G> {
    ghost use Rattle.domain_stories.specs.Free.{IsPartOf};
    ghost use Rattle.domain_stories.specs.Home.{IsHome};

    type Pass = DomainPass<G>;

    ghost is_part = { IsPartOf };

    ghost is_home = { IsHome };

    fn call<R: Wait>(
        &self,
        rt: &R,
        alloc: Global,
        pass: DomainPass<G>,
        who: Who,
        call: &Call,
        desk: &mut D,
    ) -> (DomainPass<G>, Reply) {
        if does_begin(call) {
            let (after, reply, _) = self.run_op(rt, alloc, pass, who, call, desk);
            (after, reply)
        } else {
            let (after, reply, _) = self.run(rt, alloc, pass, who, call, desk);
            (after, reply)
        }
    }

    fn look<R: Wait>(
        &self,
        rt: &R,
        alloc: Global,
        pass: DomainPass<G>,
    ) -> (DomainPass<G>, Queried) {
        self.query(rt, alloc, pass, &Query::Info)
    }

    fn listen<R: Wait>(
        &self,
        rt: &R,
        alloc: Global,
        pass: DomainPass<G>,
    ) -> (DomainPass<G>, Hushed) {
        self.hear(rt, alloc, pass)
    }

    fn cut_off(&self, home: Home<DomainPass<G>>) -> (Home<DomainPass<G>>, DomainPass<G>)
        requires home { IsHome self.now home.pass home.out }
        requires few { home.out < 100 }
        ensures home { IsHome self.now result.0.pass result.0.out }
        ensures part { IsPartOf self.now result.1 }
    {
        let Home { pass, out } = home;
        let (pass, part) = self.split(pass);
        (Home { pass, out: out + 1 }, part)
    }

    fn take_back<R: Wait>(
        &self,
        rt: &R,
        home: Home<DomainPass<G>>,
        part: DomainPass<G>,
    ) -> Home<DomainPass<G>>
        requires home { IsHome self.now home.pass home.out }
        requires part { IsPartOf self.now part }
        ensures { IsHome self.now result.pass result.out }
    {
        if home.out == 0 {
            return home;
        }
        let Home { pass, out } = home;
        match self.enter(rt, part) {
            Ok(turn) => {
                let part = self.leave(turn);
                Home {
                    pass: self.join(pass, part),
                    out: out - 1,
                }
            }
            Err(_) => Home { pass, out },
        }
    }

    fn end(self, home: Home<DomainPass<G>>) -> Option<Chronicle>
        requires { IsHome self home.pass home.out }
    {
        let Home { pass, out } = home;
        if out == 0 {
            Some(self.close(pass).into_history())
        } else {
            None
        }
    }
}
