// Whether a guest runs, why it stopped or ended, and the state of a domain as the wire has it.
ghost use Rattle.std.specs.Prelude.{◌≡◌, ◌≢◌, IfNone, IfSome};
ghost use Rattle.virt_types.specs.declared.run_state.DomainState.{DomainState as TheDomainState};
ghost use Rattle.virt_types.specs.Numbers.{state_number, state_word};

/// Why a guest that is live is paused.
#[derive(Clone, Copy, Debug, PartialEq, Eq)]
pub enum Cause {
    /// A caller suspended it, or the guest stopped itself.
    User,
    /// An operation that copies its state holds it.
    Job,
    /// It was made and has not run yet.
    Starting,
    /// It is between two hosts: it left this one or came to it, and no call has said yet where it goes on.
    Moved,
}

/// What a live guest does.
#[derive(Clone, Copy, Debug, PartialEq, Eq)]
pub enum RunState {
    /// It runs.
    Running,
    /// It is paused.
    Paused(Cause),
    /// It reported that it can't go on.
    Crashed,
}

/// Why a boot ended.
#[derive(Clone, Copy, Debug, PartialEq, Eq)]
pub enum EndReason {
    /// The guest shut down.
    Shutdown,
    /// The guest crashed.
    Crashed,
    /// It was destroyed.
    Killed,
    /// Its state was saved.
    Saved,
    /// It could not be started.
    Failed,
    /// The link to it was lost.
    Lost,
    /// A snapshot without a saved state took its place.
    FromSnapshot,
    /// It went to another host.
    Migrated,
}

/// The state of a domain as the wire has it, with libvirt's numbers (`virDomainState` of
/// `libvirt-domain.h`).
#[derive(Clone, Copy, Debug, PartialEq, Eq)]
pub enum DomainState {
    /// Its guest runs.
    Running = 1,
    /// Its guest is paused.
    Paused = 3,
    /// It has no guest.
    ShutOff = 5,
    /// Its guest crashed.
    Crashed = 6,
}

const STATES: [DomainState; 4] = [
    DomainState::Running,
    DomainState::Paused,
    DomainState::ShutOff,
    DomainState::Crashed,
];

impl DomainState {
    /// Its number.
    pub fn number(self) -> u32
        ensures { result ≡ state_number self }
    {
        self as u32
    }

    /// The state with this number.
    pub fn of_number(number: u32) -> Option<DomainState>
        ensures some { IfSome result (λ state. state_number state ≡ number) }
        ensures none { IfNone result ((state : TheDomainState) → state_number state ≢ number) }
    {
        STATES
            .iter()
            .copied()
            .find(|state| state.number() == number)
    }

    /// The word for it.
    pub fn word(self) -> &'static str
        ensures { result.now ≡ state_word self }
    {
        match self {
            DomainState::Running => "running",
            DomainState::Paused => "paused",
            DomainState::ShutOff => "shut off",
            DomainState::Crashed => "crashed",
        }
    }
}
