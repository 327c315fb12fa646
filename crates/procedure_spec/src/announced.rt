// Which procedures are announced.
ghost use Rattle.std.specs.Prelude.{◌≡◌};
ghost use Rattle.procedure_spec.specs.Announcing.{is_announced as announced};

use crate::procedure::Procedure;

/// Whether a call of it is told that it is not built as long as it is not served. Of the others the
/// number is unknown until then.
pub fn is_announced(procedure: Procedure) -> bool
    ensures { result ≡ announced procedure }
{
    !matches!(
        procedure,
        Procedure::Titles
            | Procedure::MigratePerform
            | Procedure::MigrateConfirm
            | Procedure::MigratePrepare
            | Procedure::MigrateFinish
            | Procedure::MigrateLimit
    )
}
