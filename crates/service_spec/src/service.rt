// What serves requests.
ghost use Rattle.std.specs.Prelude.{◌≡◌, Bool};
ghost use Rattle.procedure_spec.specs.Results.{result_shape};
ghost use Rattle.procedure_spec.specs.declared.procedure.Procedure.{Procedure as OfProcedure};
ghost use Rattle.service_spec.specs.Activities.{Hand, hand};
ghost use Rattle.service_spec.specs.Sayable.{IsSayable};
ghost use Rattle.virt_types.specs.Below.types_base.declared.caller.Who.{Who as Caller};
ghost use Rattle.virt_types.specs.declared.request.Request.{Request as Asked};
ghost use Rattle.virt_types.specs.declared.value.Reply.{Reply as Said};

use procedure_spec::Procedure;
use std::sync::Wait;
use virt_types::{Random, Reply, Request, Who};

/// What serves requests. Many activities call it at once, each with a row of its own.
pub trait Service {
    /// What an activity calls it with: its right to take turns at what is shared.
    type Row: Drop;

    // The row is one of its own, and may serve a request.
    ghost is_ready: { Self → Self.Row → Type 0 };

    // Which procedures it serves.
    ghost is_served: { OfProcedure → Bool };

    // What a caller was told, with what it had at hand before and after.
    ghost has_called: { Caller → Asked → Said → Hand Self.Row → Hand Self.Row → Type 0 };

    /// Whether it serves requests of this procedure. Calls of the others are refused before their payload is looked at.
    /// CONNECT_CLOSE needs no service: a session answers it itself.
    fn serves(&self, procedure: Procedure) -> bool
        ensures { result ≡ is_served procedure };

    /// Serves a request. The reply has the shape of what the request's procedure replies. It may wait.
    fn call<H: Wait, R: Random>(
        &self,
        rt: &H,
        row: Self::Row,
        who: Who,
        request: &Request,
        random: &mut R,
    ) -> (Self::Row, Reply)
        requires ready { is_ready self.now row }
        ensures called { has_called who request.now result.1 (hand row (R.drawn random.old)) (hand result.0 (R.drawn random.new)) }
        ensures sayable { IsSayable (result_shape request.now) result.1 }
        ensures still_ready { is_ready self.now result.0 };
}
