// Operations: the long works on a domain, beside which other calls are served.
ghost use Rattle.std.specs.Prelude.{◌≡◌, ◌==◌, ◌≢◌, IfNone, IfSome, find};
ghost use Rattle.virt_types.specs.declared.operation.OpKind.{OpKind as TheOpKind};
ghost use Rattle.virt_types.specs.declared.operation.Phase.{Phase as ThePhase};
ghost use Rattle.virt_types.specs.Numbers.{op_number, op_word, phase_number};

use types_base::{NoMemory, Refusal, TryCopy, Who};

/// What kind of operation it is. Its arguments are in its call. The numbers are those by which
/// the wire and status files name it; 0 is none.
#[derive(Clone, Copy, Debug, PartialEq, Eq)]
pub enum OpKind {
    /// A guest is started, of a stored or of a given definition.
    Start = 1,
    /// A guest's state is saved to a file, and the guest ends.
    Save = 2,
    /// A guest's state is written to a file.
    Dump = 3,
    /// A snapshot is taken.
    Snapshot = 4,
    /// A guest is started from a saved state.
    Restore = 5,
    /// A snapshot is gone back to.
    Revert = 6,
    /// A guest goes to another host.
    MigrateOut = 7,
    /// A guest comes from another host.
    MigrateIn = 8,
}

const KINDS: [OpKind; 8] = [
    OpKind::Start,
    OpKind::Save,
    OpKind::Dump,
    OpKind::Snapshot,
    OpKind::Restore,
    OpKind::Revert,
    OpKind::MigrateOut,
    OpKind::MigrateIn,
];

impl OpKind {
    /// Its number.
    pub fn number(self) -> u32
        ensures { result ≡ op_number self }
    {
        self as u32
    }

    /// The kind with this number.
    pub fn of_number(number: u32) -> Option<OpKind>
        ensures some { IfSome result (λ kind. op_number kind ≡ number) }
        ensures none { IfNone result ((kind : TheOpKind) → op_number kind ≢ number) }
    {
        KINDS.iter().copied().find(|kind| kind.number() == number)
    }

    /// The word for it.
    pub fn word(self) -> &'static str
        ensures { result.now ≡ op_word self }
    {
        match self {
            OpKind::Start => "start",
            OpKind::Save => "save",
            OpKind::Dump => "dump",
            OpKind::Snapshot => "snapshot",
            OpKind::Restore => "restore",
            OpKind::Revert => "revert",
            OpKind::MigrateOut => "migrate-out",
            OpKind::MigrateIn => "migrate-in",
        }
    }
}

/// A step of an operation, with the numbers by which the wire and status files name it.
#[derive(Clone, Copy, Debug, PartialEq, Eq)]
pub enum Phase {
    /// No step with asks: the one step of an operation whose row has none. Beside no operation it
    /// says that nothing is under way.
    Nothing = 0,
    /// The guest is made.
    Make = 1,
    /// The guest is set going.
    Run = 2,
    /// A saved state is loaded into the guest.
    Load = 3,
    /// The copying of the guest's state is begun.
    Copy = 4,
    /// The copying is asked how much is left.
    Poll = 5,
    /// What was copied is taken, and written where it belongs.
    Take = 6,
    /// The guest is ended.
    Quit = 7,
    /// The copying is given up.
    Cancel = 8,
    /// `mcopy`: the copying of a guest that goes to another host is begun, while the guest goes on.
    MigrateCopy = 9,
    /// `mtake`: that guest is stopped, and what was copied is taken.
    MigrateTake = 10,
    /// `mcancel`: that copying is given up.
    MigrateCancel = 11,
    /// `mload`: the state of a guest that comes from another host is loaded.
    MigrateLoad = 12,
    /// `resting`: the operation rests until a call takes it up.
    Resting = 13,
    /// `mquit`: the guest goes on at the other host, and is ended here.
    MigrateQuit = 14,
    /// `mback`: the guest goes on here after all.
    MigrateBack = 15,
    /// `mrun`: a guest that came from another host goes on here.
    MigrateRun = 16,
    /// `mdrop`: a guest that came from another host is given up.
    MigrateDrop = 17,
}

const PHASES: [Phase; 18] = [
    Phase::Nothing,
    Phase::Make,
    Phase::Run,
    Phase::Load,
    Phase::Copy,
    Phase::Poll,
    Phase::Take,
    Phase::Quit,
    Phase::Cancel,
    Phase::MigrateCopy,
    Phase::MigrateTake,
    Phase::MigrateCancel,
    Phase::MigrateLoad,
    Phase::Resting,
    Phase::MigrateQuit,
    Phase::MigrateBack,
    Phase::MigrateRun,
    Phase::MigrateDrop,
];

fn phase_numbered(number: u32) -> Option<Phase>
    ensures { result ≡ find (λ phase. phase_number phase == number) PHASES }
{
    PHASES
        .iter()
        .copied()
        .find(|phase| phase.number() == number)
}

impl Phase {
    /// Its number.
    pub fn number(self) -> u32
        ensures { result ≡ phase_number self }
    {
        self as u32
    }

    /// The phase with this number.
    pub fn of_number(number: u32) -> Option<Phase>
        ensures some { IfSome result (λ phase. phase_number phase ≡ number) }
        ensures none { IfNone result ((phase : ThePhase) → phase_number phase ≢ number) }
    {
        phase_numbered(number)
    }
}

/// An operation that is under way.
pub struct Op {
    /// What kind it is.
    pub kind: OpKind,
    /// The call that took it up last, else the one that began it.
    pub who: Who,
    /// The boot that it works on; none where it works on no guest.
    pub boot: Option<u64>,
    /// Whether it makes that boot.
    pub new_boot: bool,
    /// The step that is due or under way.
    pub phase: Phase,
    /// Whether the guest ran when it was begun.
    pub was_running: bool,
    /// Whether a caller asked that it be given up.
    pub abort: bool,
    /// How many polls in a row saw no less left than the poll before, 0 to 64.
    pub still: u32,
    /// How much the last poll saw left; none before the first poll.
    pub remaining: Option<u64>,
    /// The refusal that led to the step that gives up, and with which it then ends.
    pub refusal: Option<Refusal>,
    /// How much of a copy may be left when a guest that goes to another host is stopped; 0 at first.
    pub limit: u64,
    /// Whether it rests: no call works on it until one takes it up.
    pub rests: bool,
}

impl Drop for Op {
    fn drop(self) {
        let Op {
            kind: _,
            who: _,
            boot: _,
            new_boot: _,
            phase: _,
            was_running: _,
            abort: _,
            still: _,
            remaining: _,
            refusal: _,
            limit: _,
            rests: _,
        } = self;
    }
}

impl TryCopy for Op {
    fn copy(&self) -> Result<Op, NoMemory> {
        Ok(Op {
            kind: self.kind,
            who: self.who,
            boot: self.boot,
            new_boot: self.new_boot,
            phase: self.phase,
            was_running: self.was_running,
            abort: self.abort,
            still: self.still,
            remaining: self.remaining,
            refusal: self.refusal.copy()?,
            limit: self.limit,
            rests: self.rests,
        })
    }
}
