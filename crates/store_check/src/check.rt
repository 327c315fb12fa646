// A store is checked.
ghost use Rattle.std.specs.Prelude.{◌≡◌, ◌≤◌, IfOk, IsErrOf, OnOk};
ghost use Rattle.outside_spec.specs.Faults.{Rose};
ghost use Rattle.types_base.specs.declared.memory.Fault.TheVariants as fault;
ghost use Rattle.def_keeper.specs.Examining.{IsExaminedAt};
ghost use Rattle.store_check.specs.Adding.{HasSaid, JudgesMore, SaysVerdict};
ghost use Rattle.store_check.specs.Checking.{HasChecked};

use crate::checked::Checked;
use crate::judging::{Verdict, judge_report};
use crate::lines::{Lines, say};
use def_keeper::{Finding, Report, examine};
use files_disk::Files;
use std::alloc::Global;
use types_base::{Fault, NoMemory, Text};

// Says what a file is by its verdict. One that is gone is passed over.
fn say_verdict(
    alloc: Global,
    lines: &mut Lines,
    report: &Report,
    verdict: Verdict,
) -> Result<(), NoMemory>
    ensures { OnOk result (SaysVerdict verdict report.now lines.old lines.new) }
{
    match verdict {
        Verdict::Good => say(alloc, lines, &report.file, &report.found),
        Verdict::Bad => say(alloc, lines, &report.file, &Finding::Damaged),
        Verdict::Gone => Ok(()),
    }
}

// Judges one file more, and says what it is.
fn judge<F: Files>(
    alloc: Global,
    files: &mut F,
    lines: &mut Lines,
    report: &Report,
) -> Result<(), Fault>
    ensures ok { OnOk result (JudgesMore (F.told files.old) report.now lines.old lines.new) }
    ensures told { F.told files.new ≡ F.told files.old }
    ensures cause { IsErrOf result fault.Failed → Rose (F.faults files.old) (F.faults files.new) }
    ensures faults { F.faults files.old ≤ F.faults files.new }
{
    let verdict = match judge_report(alloc, files, report) {
        Ok(verdict) => verdict,
        Err(Fault::Failed) => return Err(Fault::Failed),
        Err(Fault::NoMemory) => return Err(Fault::NoMemory),
    };
    match say_verdict(alloc, lines, report, verdict) {
        Ok(()) => Ok(()),
        Err(NoMemory) => Err(Fault::NoMemory),
    }
}

// Judges all files, and says what they are.
fn judge_all<F: Files>(alloc: Global, files: &mut F, reports: &[Report]) -> Result<Lines, Fault>
    requires { IsExaminedAt (F.told files.old) reports.now }
    ensures ok { IfOk result (HasSaid (F.told files.old) reports.now) }
    ensures told { F.told files.new ≡ F.told files.old }
    ensures cause { IsErrOf result fault.Failed → Rose (F.faults files.old) (F.faults files.new) }
    ensures faults { F.faults files.old ≤ F.faults files.new }
{
    let mut lines = Lines {
        text: String::new(alloc),
        damaged: None,
    };
    for report in reports {
        match judge(alloc, files, &mut lines, report) {
            Ok(()) => {}
            Err(Fault::Failed) => return Err(Fault::Failed),
            Err(Fault::NoMemory) => return Err(Fault::NoMemory),
        }
    }
    Ok(lines)
}

/// What each file of a store is, in lines, and the first that is damaged, with nothing changed: first the definitions'
/// files by rising names, `KIND NAME UUID ok` or `FILE damaged`, and then the status files by rising names, `was running
/// NAME boot N`, or `was running ? boot ?` of one that reports nothing. A file is damaged too where an earlier one of its
/// kind has its name, or where its text is not that of its domain.
#[tactic(auto, using(crate::proofs::Saying::checked))]
pub fn check_store<F: Files>(alloc: Global, files: &mut F) -> Result<Checked, Fault>
    ensures ok { IfOk result (HasChecked (F.told files.old)) }
    ensures told { F.told files.new ≡ F.told files.old }
    ensures cause { IsErrOf result fault.Failed → Rose (F.faults files.old) (F.faults files.new) }
    ensures faults { F.faults files.old ≤ F.faults files.new }
{
    let reports = match examine(alloc, files) {
        Ok(reports) => reports,
        Err(Fault::Failed) => return Err(Fault::Failed),
        Err(Fault::NoMemory) => return Err(Fault::NoMemory),
    };
    match judge_all(alloc, files, reports.as_slice()) {
        Ok(Lines { text, damaged }) => Ok(Checked {
            text: Text::of(text),
            damaged,
        }),
        Err(Fault::Failed) => Err(Fault::Failed),
        Err(Fault::NoMemory) => Err(Fault::NoMemory),
    }
}
