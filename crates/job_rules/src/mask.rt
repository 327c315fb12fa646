// Which normal jobs an operation admits.
ghost use Rattle.std.specs.Prelude.{◌≡◌};
ghost use Rattle.domain_spec.specs.JobTable.{admitted_jobs};

use virt_types::{Job, OpKind};

/// The normal jobs that an operation of this kind admits, besides its own nested ones.
pub fn admitted_jobs(kind: OpKind) -> &'static [Job]
    ensures { result.now ≡ admitted_jobs kind }
{
    match kind {
        OpKind::Start | OpKind::Restore | OpKind::Revert => &[Job::Query, Job::Destroy],
        OpKind::Save | OpKind::Snapshot => &[Job::Query, Job::Destroy, Job::Abort],
        OpKind::Dump => &[Job::Query, Job::Destroy, Job::Abort, Job::Suspend],
        OpKind::MigrateOut => &[
            Job::Query,
            Job::Destroy,
            Job::Abort,
            Job::Suspend,
            Job::MigrationOp,
        ],
        OpKind::MigrateIn => &[],
    }
}
