// What becomes of a phase that was refused.
ghost use Rattle.std.specs.Prelude.{◌≡◌};
ghost use Rattle.core_rules.specs.Refusing.{kind_by, kind_on_guest, kind_on_none, refused_kind};

use virt_types::{Domain, Phase, State};

/// What becomes of an operation whose phase was refused.
#[derive(Clone, Copy, Debug, PartialEq, Eq)]
pub enum Refused {
    /// It is over, with the refusal.
    Over,
    /// It is over, with the refusal that led it to give up.
    Led,
    /// It gives up next.
    GivesUp,
    /// It rests.
    Rests,
    /// Its new boot is gone, and it is over.
    StartFails,
}

fn kind_on_guest(new_boot: bool, phase: Phase) -> Refused
    ensures { result ≡ kind_on_guest new_boot phase }
{
    match phase {
        Phase::Make | Phase::Run | Phase::MigrateLoad => Refused::StartFails,
        Phase::Load => {
            if new_boot {
                Refused::StartFails
            } else {
                Refused::Over
            }
        }
        Phase::Poll | Phase::Take | Phase::Quit | Phase::MigrateTake => Refused::GivesUp,
        Phase::Cancel | Phase::MigrateCancel => Refused::Led,
        Phase::MigrateQuit | Phase::MigrateBack | Phase::MigrateRun | Phase::MigrateDrop => {
            Refused::Rests
        }
        Phase::Nothing | Phase::Copy | Phase::MigrateCopy | Phase::Resting => Refused::Over,
    }
}

fn kind_on_none(phase: Phase) -> Refused
    ensures { result ≡ kind_on_none phase }
{
    match phase {
        Phase::Take => Refused::GivesUp,
        Phase::Cancel => Refused::Led,
        _ => Refused::Over,
    }
}

fn kind_by(domain: &Domain) -> Refused
    ensures { result ≡ kind_by domain.now domain.now.op }
{
    match &domain.op {
        None => Refused::Over,
        Some(op) => {
            if domain.live.is_some() {
                kind_on_guest(op.new_boot, op.phase)
            } else {
                kind_on_none(op.phase)
            }
        }
    }
}

/// What becomes of the operation of this state, whose phase was refused.
#[tactic(auto, unfolding(crate::specs::Refusing::refused_kind))]
pub fn refused_kind(state: &State) -> Refused
    ensures { result ≡ refused_kind state.now }
{
    match state {
        State::Vacant { .. } => Refused::Over,
        State::Held(domain) => kind_by(domain),
    }
}
