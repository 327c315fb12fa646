// The steps of each phase: what is asked, before any ask is built.
ghost use Rattle.std.specs.Prelude.{◌≡◌, ◌==◌, ◌&&◌, List, map, not, option_map, slice_get};
ghost use Rattle.domain_spec.specs.Types.{Answer as TheAnswer, Call as TheCall, Domain as TheDomain, Live as TheLive, Op as TheOp};
ghost use Rattle.domain_spec.specs.Types.phase;
ghost use Rattle.core_rules.specs.Cores.{core_of_phase};
ghost use Rattle.core_rules.specs.Next.{next_if};
ghost use Rattle.core_rules.specs.Place.{next_at};
ghost use Rattle.core_rules.specs.declared.cores.Core.TheVariants as core;
ghost use Rattle.domain_spec.specs.Asks.{undone_by};
ghost use Rattle.domain_spec.specs.Call.{tell_if};
ghost use Rattle.domain_spec.specs.Reading.{is_running};
ghost use Rattle.domain_spec.specs.PhaseAsks.{cancel_asks, copy_asks, is_given_up, is_stalled, live_phase_asks, live_phase_plan, live_phase_undo, load_asks, loaded_of, migrate_load_asks, migrate_take_plan, resumes, take_asks};
ghost use Rattle.domain_spec.specs.Types.command;
ghost use Rattle.save_core.specs.Steps.{ask_of};

use crate::loaded_from::loaded_of;
use core_rules::{Place, is_held_by_job, is_running};
use virt_types::{Call, Domain, Live, Op, Phase};

/// A step of a phase. It makes one ask.
#[derive(Clone, Copy, Debug, PartialEq, Eq)]
pub enum Step {
    /// The guest is to stand still.
    Stop,
    /// It is to begin to copy its state.
    Begin,
    /// It is asked how much of the copy is left.
    Poll,
    /// It is to hand the copy over.
    Take,
    /// What it handed over is written to a file.
    Write,
    /// It is to give the copy up.
    GiveUp,
    /// It is to take a state.
    Load,
    /// It is to go on.
    Cont,
    /// It is to end.
    Quit,
}

/// Whether 64 polls in a row saw no less left than the poll before.
pub fn is_stalled(op: &Op) -> bool
    ensures { result ≡ is_stalled op.now }
{
    64 <= op.still
}

fn is_given_up(op: &Op) -> bool
    ensures { result ≡ is_given_up op.now }
{
    op.abort || is_stalled(op)
}

/// Whether a guest ran before, and stands still since its state is copied.
pub fn resumes(live: &Live, op: &Op) -> bool
    ensures { result ≡ resumes live.now op.now }
{
    op.was_running && is_held_by_job(live.run)
}

fn load_steps(domain: &Domain, live: &Live, op: &Op, call: &Call) -> &'static [Step]
    ensures { (answers : List TheAnswer) → map (ask_of domain.now live.now op.now call.now answers) result.now ≡ load_asks live.now op.now (loaded_of domain.now call.now) }
{
    match loaded_of(domain, call) {
        None => &[],
        Some(loaded) => match (!op.new_boot && is_running(live.run), loaded.ran) {
            (true, true) => &[Step::Stop, Step::Load, Step::Cont],
            (true, false) => &[Step::Stop, Step::Load],
            (false, true) => &[Step::Load, Step::Cont],
            (false, false) => &[Step::Load],
        },
    }
}

fn copy_steps(live: &Live) -> &'static [Step]
    ensures { (d : TheDomain) (op : TheOp) (c : TheCall) (answers : List TheAnswer) → map (ask_of d live.now op c answers) result.now ≡ copy_asks live.now }
{
    if is_running(live.run) {
        &[Step::Stop, Step::Begin]
    } else {
        &[Step::Begin]
    }
}

fn take_steps(live: &Live, op: &Op, call: &Call) -> &'static [Step]
    ensures { (d : TheDomain) (answers : List TheAnswer) → map (ask_of d live.now op.now call.now answers) result.now ≡ take_asks live.now op.now call.now answers }
{
    match (call, resumes(live, op)) {
        (Call::Save(_), _) => &[Step::Take, Step::Write],
        (Call::Dump(_), true) => &[Step::Take, Step::Write, Step::Cont],
        (Call::Dump(_), false) => &[Step::Take, Step::Write],
        (_, true) => &[Step::Take, Step::Cont],
        (_, false) => &[Step::Take],
    }
}

fn cancel_steps(live: &Live, op: &Op) -> &'static [Step]
    ensures { (d : TheDomain) (c : TheCall) (answers : List TheAnswer) → map (ask_of d live.now op.now c answers) result.now ≡ cancel_asks live.now op.now }
{
    if resumes(live, op) {
        &[Step::GiveUp, Step::Cont]
    } else {
        &[Step::GiveUp]
    }
}

fn migrate_load_steps(domain: &Domain, call: &Call) -> &'static [Step]
    ensures { (l : TheLive) (op : TheOp) (answers : List TheAnswer) → map (ask_of domain.now l op call.now answers) result.now ≡ migrate_load_asks (loaded_of domain.now call.now) }
{
    match loaded_of(domain, call) {
        None => &[],
        Some(_) => &[Step::Load],
    }
}

fn migrate_take_steps(runs: bool) -> &'static [Step]
    ensures { (d : TheDomain) (l : TheLive) (op : TheOp) (c : TheCall) (answers : List TheAnswer) → is_running l.run ≡ runs → map (ask_of d l op c answers) result.now ≡ map (λ p. p.ask) (migrate_take_plan l) }
{
    if runs {
        &[Step::Stop, Step::Take]
    } else {
        &[Step::Take]
    }
}

fn poll_steps(op: &Op) -> &'static [Step]
    ensures { (d : TheDomain) (l : TheLive) (c : TheCall) (answers : List TheAnswer) → map (ask_of d l op.now c answers) result.now ≡ tell_if (not (is_given_up op.now)) command.CopyPoll }
{
    if is_given_up(op) { &[] } else { &[Step::Poll] }
}

// The guest goes on, where it is to.
fn cont_if(wanted: bool) -> &'static [Step]
    ensures { (d : TheDomain) (l : TheLive) (op : TheOp) (c : TheCall) (answers : List TheAnswer) → map (ask_of d l op c answers) result.now ≡ tell_if wanted command.Cont }
{
    if wanted { &[Step::Cont] } else { &[] }
}

fn load_undo(live: &Live, op: &Op) -> &'static [Step]
    ensures { (d : TheDomain) (c : TheCall) (answers : List TheAnswer) → map (ask_of d live.now op.now c answers) result.now ≡ live_phase_undo live.now op.now phase.Load }
{
    if op.new_boot {
        &[Step::Quit]
    } else {
        cont_if(is_running(live.run))
    }
}

// The steps of a phase, but of a take that stops the guest.
fn plain_steps(domain: &Domain, live: &Live, op: &Op, call: &Call, phase: Phase) -> &'static [Step]
    requires save { core_of_phase phase call.now ≡ core.Save }
    ensures { (answers : List TheAnswer) → map (ask_of domain.now live.now op.now call.now answers) result.now ≡ live_phase_asks domain.now live.now op.now call.now answers phase }
{
    match phase {
        Phase::Load => load_steps(domain, live, op, call),
        Phase::Copy => copy_steps(live),
        Phase::Poll => poll_steps(op),
        Phase::Take => take_steps(live, op, call),
        Phase::Cancel => cancel_steps(live, op),
        Phase::Quit | Phase::MigrateQuit | Phase::MigrateDrop => &[Step::Quit],
        Phase::MigrateCopy => &[Step::Begin],
        Phase::MigrateCancel => &[Step::GiveUp],
        Phase::MigrateLoad => migrate_load_steps(domain, call),
        Phase::MigrateBack => cont_if(op.was_running),
        Phase::MigrateRun => cont_if(op.was_running),
        Phase::MigrateTake | Phase::Resting => &[],
        Phase::Nothing | Phase::Make | Phase::Run => unreachable!(),
    }
}

// What undoes each step of a phase, but of a take that stops the guest: a new boot is ended, and a
// guest that ran goes on.
fn plain_undo(live: &Live, op: &Op, call: &Call, phase: Phase) -> &'static [Step]
    requires save { core_of_phase phase call.now ≡ core.Save }
    ensures { (d : TheDomain) (answers : List TheAnswer) → map (ask_of d live.now op.now call.now answers) result.now ≡ live_phase_undo live.now op.now phase }
{
    match phase {
        Phase::Load => load_undo(live, op),
        Phase::Copy => cont_if(is_running(live.run)),
        Phase::MigrateLoad => &[Step::Quit],
        Phase::Nothing | Phase::Make | Phase::Run => unreachable!(),
        Phase::Poll
        | Phase::Take
        | Phase::Cancel
        | Phase::Quit
        | Phase::MigrateCopy
        | Phase::MigrateTake
        | Phase::MigrateCancel
        | Phase::Resting
        | Phase::MigrateQuit
        | Phase::MigrateBack
        | Phase::MigrateRun
        | Phase::MigrateDrop => &[],
    }
}

// What undoes the ask at a place of a take that stops the guest: the take's, which is the second.
fn migrate_take_undo(runs: bool, of: usize) -> &'static [Step]
    ensures { (d : TheDomain) (l : TheLive) (op : TheOp) (c : TheCall) (answers : List TheAnswer) → map (ask_of d l op c answers) result.now ≡ tell_if (runs && of == 1) command.Cont }
{
    match (runs, of) {
        (true, 1) => &[Step::Cont],
        _ => &[],
    }
}

fn step_in(steps: &'static [Step], n: usize) -> Option<Step>
    ensures { result ≡ slice_get steps.now n }
{
    steps.get(n).copied()
}

// The step at a place of a phase, but of a take that stops the guest.
fn plain_step_at(
    domain: &Domain,
    live: &Live,
    op: &Op,
    call: &Call,
    phase: Phase,
    place: Place,
) -> Option<Step>
    requires save { core_of_phase phase call.now ≡ core.Save }
    ensures { (answers : List TheAnswer) → next_at (undone_by (live_phase_undo live.now op.now phase) (live_phase_asks domain.now live.now op.now call.now answers phase)) place ≡ next_if (option_map (ask_of domain.now live.now op.now call.now answers) result) }
{
    let steps = plain_steps(domain, live, op, call, phase);
    match place {
        Place::Plan(n) => step_in(steps, n),
        Place::Undo { of, step } => {
            if of < steps.len() {
                step_in(plain_undo(live, op, call, phase), step)
            } else {
                None
            }
        }
        Place::Through => None,
    }
}

// The step at a place of a take that stops the guest. Only the take itself is undone.
fn migrate_take_step_at(live: &Live, place: Place) -> Option<Step>
    ensures { (d : TheDomain) (op : TheOp) (c : TheCall) (answers : List TheAnswer) → next_at (migrate_take_plan live.now) place ≡ next_if (option_map (ask_of d live.now op c answers) result) }
{
    let runs = is_running(live.run);
    match place {
        Place::Plan(n) => step_in(migrate_take_steps(runs), n),
        Place::Undo { of, step } => step_in(migrate_take_undo(runs, of), step),
        Place::Through => None,
    }
}

/// The step at a place of the due phase.
pub fn step_at(domain: &Domain, live: &Live, op: &Op, call: &Call, place: Place) -> Option<Step>
    requires save { core_of_phase op.now.phase call.now ≡ core.Save }
    ensures { (answers : List TheAnswer) → next_at (live_phase_plan domain.now live.now op.now call.now answers op.now.phase) place ≡ next_if (option_map (ask_of domain.now live.now op.now call.now answers) result) }
{
    match op.phase {
        Phase::MigrateTake => migrate_take_step_at(live, place),
        phase => plain_step_at(domain, live, op, call, phase, place),
    }
}
