// What is reported of a domain to those who registered for its events.
ghost use Rattle.std.specs.Prelude.{◌≡◌};
ghost use Rattle.types_base.specs.Transition.{transition};

/// An event of a domain, with libvirt's numbers (`virDomainEventType` and the details of each type
/// in `libvirt-domain.h`). A client gets any numbers; the daemon reports those of the constants.
#[derive(Clone, Copy, Debug, PartialEq, Eq)]
pub struct Transition {
    /// What came about.
    pub event: u32,
    /// How it came about.
    pub detail: u32,
}

/// The domain got its first stored definition.
pub const DEFINED_ADDED: Transition = Transition {
    event: 0,
    detail: 0,
};

/// The stored definition of the domain was replaced.
pub const DEFINED_UPDATED: Transition = Transition {
    event: 0,
    detail: 1,
};

/// The stored definition of the domain was removed.
pub const UNDEFINED_REMOVED: Transition = Transition {
    event: 1,
    detail: 0,
};

/// The guest was booted.
pub const STARTED_BOOTED: Transition = Transition {
    event: 2,
    detail: 0,
};

/// The guest came from another host.
pub const STARTED_MIGRATED: Transition = Transition {
    event: 2,
    detail: 1,
};

/// The guest was started from a saved state.
pub const STARTED_RESTORED: Transition = Transition {
    event: 2,
    detail: 2,
};

/// The guest was started from a snapshot.
pub const STARTED_FROM_SNAPSHOT: Transition = Transition {
    event: 2,
    detail: 3,
};

/// The guest was paused.
pub const SUSPENDED_PAUSED: Transition = Transition {
    event: 3,
    detail: 0,
};

/// The guest goes on.
pub const RESUMED_UNPAUSED: Transition = Transition {
    event: 4,
    detail: 0,
};

/// The guest shut down and has ended.
pub const STOPPED_SHUTDOWN: Transition = Transition {
    event: 5,
    detail: 0,
};

/// The guest was destroyed.
pub const STOPPED_DESTROYED: Transition = Transition {
    event: 5,
    detail: 1,
};

/// The guest crashed and has ended.
pub const STOPPED_CRASHED: Transition = Transition {
    event: 5,
    detail: 2,
};

/// The guest went to another host.
pub const STOPPED_MIGRATED: Transition = Transition {
    event: 5,
    detail: 3,
};

/// The guest was saved.
pub const STOPPED_SAVED: Transition = Transition {
    event: 5,
    detail: 4,
};

/// The guest failed to start, or ended without a known reason.
pub const STOPPED_FAILED: Transition = Transition {
    event: 5,
    detail: 5,
};

/// A snapshot took the guest's place.
pub const STOPPED_FROM_SNAPSHOT: Transition = Transition {
    event: 5,
    detail: 6,
};

/// The guest shuts down.
pub const SHUTDOWN_FINISHED: Transition = Transition {
    event: 6,
    detail: 0,
};

/// The guest reported a panic.
pub const CRASHED_PANICKED: Transition = Transition {
    event: 8,
    detail: 0,
};

/// The numbers of the constants above, once more, so that none drifts.
pub fn transition_numbers()
    ensures defined { (DEFINED_ADDED ≡ transition 0 0) × (DEFINED_UPDATED ≡ transition 0 1) }
    ensures undefined { UNDEFINED_REMOVED ≡ transition 1 0 }
    ensures started { (STARTED_BOOTED ≡ transition 2 0) × (STARTED_MIGRATED ≡ transition 2 1) }
    ensures restarted { (STARTED_RESTORED ≡ transition 2 2) × (STARTED_FROM_SNAPSHOT ≡ transition 2 3) }
    ensures suspended { (SUSPENDED_PAUSED ≡ transition 3 0) × (RESUMED_UNPAUSED ≡ transition 4 0) }
    ensures stopped { (STOPPED_SHUTDOWN ≡ transition 5 0) × (STOPPED_DESTROYED ≡ transition 5 1) }
    ensures crashed { (STOPPED_CRASHED ≡ transition 5 2) × (STOPPED_MIGRATED ≡ transition 5 3) }
    ensures saved { (STOPPED_SAVED ≡ transition 5 4) × (STOPPED_FAILED ≡ transition 5 5) }
    ensures reverted { STOPPED_FROM_SNAPSHOT ≡ transition 5 6 }
    ensures guest { (SHUTDOWN_FINISHED ≡ transition 6 0) × (CRASHED_PANICKED ≡ transition 8 0) }
{}
