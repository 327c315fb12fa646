// The jobs that are held for a domain, as a call finds them.
ghost use Rattle.std.specs.Prelude.{◌≡◌, []};
ghost use Rattle.domain_spec.specs.Open.{job_held, operation_held};
ghost use Rattle.core_log.specs.Record.{force_of};

use core_log::{Record, job_held, operation_held};
use job_rules::{JobRecord, Waiters};

/// The normal job that is open and the operation that is under way. Who waits is kept elsewhere.
pub fn jobs_held(kept: &Record) -> JobRecord
    ensures active { result.active ≡ job_held (force_of kept.now).job }
    ensures op { result.op ≡ operation_held (force_of kept.now).operation }
    ensures waiting { result.waiting ≡ [] }
{
    JobRecord {
        active: job_held(kept.job()),
        op: operation_held(kept.operation()),
        waiting: Waiters::new(),
    }
}
