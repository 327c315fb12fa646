// Whether a definition's text is its object's own.
ghost use Rattle.std.specs.Prelude.{◌≡◌, ◌≤◌, ℕ, List, IfOk, IsErrOf};
ghost use Rattle.std.specs.Bool.{Decides};
ghost use Rattle.outside_spec.specs.Faults.{Rose};
ghost use Rattle.types_base.specs.declared.memory.Fault.TheVariants as fault;
ghost use Rattle.store_check.specs.Adding.{IsOfDefinition, IsOfFinding, IsOfText};
ghost use Rattle.store_check.specs.Judging.{IsOwnText};

use def_keeper::{Finding, Report};
use domain_texts::read_stored;
use files_disk::Files;
use std::alloc::Global;
use store_reading::read_definition;
use store_spec::BookKind;
use types_base::{Fault, NoMemory, Text, Uuid};

/// What a file is once its text is read.
#[derive(Clone, Copy)]
pub(crate) enum Verdict {
    /// It is what it was found to be.
    Good,
    /// It has not its object's own text.
    Bad,
    /// There is no such file any more.
    Gone,
}

// Whether the bytes of a file are a definition with this domain's text.
fn is_own_text(alloc: Global, bytes: &[u8], uuid: Uuid) -> Result<bool, NoMemory>
    ensures { IfOk result (λ own. Decides own (IsOwnText bytes.now uuid)) }
{
    match read_definition(alloc, bytes) {
        Ok(Some(read)) => match read_stored(alloc, read.version, uuid, &read.entry) {
            Ok(Some(_)) => Ok(true),
            Ok(None) => Ok(false),
            Err(NoMemory) => Err(NoMemory),
        },
        Ok(None) => Ok(false),
        Err(NoMemory) => Err(NoMemory),
    }
}

// What the file of a domain is: a definition with this domain's text, or not.
fn judge_text<F: Files>(
    alloc: Global,
    files: &mut F,
    file: &Text,
    uuid: Uuid,
) -> Result<Verdict, Fault>
    ensures ok { IfOk result (IsOfText (F.told files.old) file.now uuid) }
    ensures told { F.told files.new ≡ F.told files.old }
    ensures cause { IsErrOf result fault.Failed → Rose (F.faults files.old) (F.faults files.new) }
    ensures faults { F.faults files.old ≤ F.faults files.new }
{
    match files.read(file) {
        Ok(Some(bytes)) => match is_own_text(alloc, bytes.as_slice(), uuid) {
            Ok(true) => Ok(Verdict::Good),
            Ok(false) => Ok(Verdict::Bad),
            Err(NoMemory) => Err(Fault::NoMemory),
        },
        Ok(None) => Ok(Verdict::Gone),
        Err(Fault::Failed) => Err(Fault::Failed),
        Err(Fault::NoMemory) => Err(Fault::NoMemory),
    }
}

// What the file of a definition is; texts of networks and pools are not read.
fn judge_definition<F: Files>(
    alloc: Global,
    files: &mut F,
    file: &Text,
    kind: BookKind,
    uuid: Uuid,
) -> Result<Verdict, Fault>
    ensures ok { IfOk result (IsOfDefinition (F.told files.old) file.now kind uuid) }
    ensures told { F.told files.new ≡ F.told files.old }
    ensures cause { IsErrOf result fault.Failed → Rose (F.faults files.old) (F.faults files.new) }
    ensures faults { F.faults files.old ≤ F.faults files.new }
{
    match kind {
        BookKind::Domain => judge_text(alloc, files, file, uuid),
        BookKind::Network | BookKind::Pool => Ok(Verdict::Good),
    }
}

/// What a file is by now: a good definition has its object's own text besides; what else was found of
/// a file stands.
pub(crate) fn judge_report<F: Files>(
    alloc: Global,
    files: &mut F,
    report: &Report,
) -> Result<Verdict, Fault>
    ensures ok { IfOk result (IsOfFinding (F.told files.old) report.now.file report.now.found) }
    ensures told { F.told files.new ≡ F.told files.old }
    ensures cause { IsErrOf result fault.Failed → Rose (F.faults files.old) (F.faults files.new) }
    ensures faults { F.faults files.old ≤ F.faults files.new }
{
    match &report.found {
        Finding::Ok { kind, uuid, .. } => {
            judge_definition(alloc, files, &report.file, *kind, *uuid)
        }
        Finding::Damaged | Finding::Ran { .. } | Finding::Unread => Ok(Verdict::Good),
    }
}
