// Refusals: why a call was not done, as an error on the wire reports it.
ghost use Rattle.std.specs.Prelude.{◌≡◌, ◌==◌, ◌≢◌, ◌≤◌, IfOk, IfNone, IfSome, IsCharBoundary, find, take};
ghost use Rattle.std.specs.Str.Lossy.{utf8_valid_len};
ghost use Rattle.types_base.specs.declared.refusal.RefusalCode.{RefusalCode as Code};
ghost use Rattle.types_base.specs.Limits.{most_kept_bytes};
ghost use Rattle.types_base.specs.Refusal.{kept_cut, refusal_message, refusal_number};

use crate::copy::TryCopy;
use crate::limits::MOST_KEPT_BYTES;
use crate::memory::NoMemory;
use crate::text::Text;
use std::alloc::Global;
use std::error::Error;
use std::fmt;

/// Why a call was refused, with the code of its error. The codes below 100 are libvirt's
/// (`virErrorNumber` of `virterror.h`), those from 201 on this project's own.
#[derive(Clone, Copy, Debug, PartialEq, Eq)]
pub enum RefusalCode {
    /// There was no memory.
    NoMemory = 2,
    /// The tables have no procedure of that number.
    UnknownProcedure = 3,
    /// An argument is outside its range, or is no name, or names a device that is not there.
    InvalidArgument = 8,
    /// The guest or the network refused, or an image is absent or bad.
    OperationFailed = 9,
    /// A definition's text has no reading.
    BadDefinition = 27,
    /// The name or identifier of a domain is held with another.
    DomainExists = 28,
    /// The name or identifier of a network is held with another.
    NetworkExists = 37,
    /// The store failed.
    StoreFailed = 38,
    /// The program or its version is unknown, or the payload is none of the procedure's.
    MalformedCall = 39,
    /// There is no such domain.
    NoDomain = 42,
    /// There is no such network.
    NoNetwork = 43,
    /// There is no such pool.
    NoPool = 49,
    /// There is no such volume.
    NoVolume = 50,
    /// The state of the domain, network or pool does not allow it.
    OperationInvalid = 55,
    /// The job was excluded at every look.
    OperationTimeout = 68,
    /// There is no such snapshot.
    NoSnapshot = 72,
    /// A caller asked that the operation be given up.
    OperationAborted = 78,
    /// The boot that the call was meant for has ended.
    GuestEnded = 201,
    /// The link to the guest was lost.
    MonitorLost = 202,
    /// The job is excluded and the waiting list is full.
    TooManyWaiting = 203,
    /// The list is at its limit.
    ListFull = 204,
    /// The procedure is in the tables and not built.
    NotBuilt = 206,
    /// The copying of the guest's state made no headway.
    Stalled = 207,
    /// The domain has a snapshot of that name.
    SnapshotExists = 208,
    /// All slots for devices are taken.
    NoFreeSlot = 209,
    /// More events came than wait for one registration. It is reported by a message and not by an error.
    EventsLost = 210,
    /// A count has reached its end.
    CountSpent = 211,
    /// The name or identifier of a pool is held with another.
    PoolExists = 212,
    /// The pool has a volume of that name.
    VolumeExists = 213,
}

// Each reason, so that a number can be looked up.
const CODES: [RefusalCode; 29] = [
    RefusalCode::NoMemory,
    RefusalCode::UnknownProcedure,
    RefusalCode::InvalidArgument,
    RefusalCode::OperationFailed,
    RefusalCode::BadDefinition,
    RefusalCode::DomainExists,
    RefusalCode::NetworkExists,
    RefusalCode::StoreFailed,
    RefusalCode::MalformedCall,
    RefusalCode::NoDomain,
    RefusalCode::NoNetwork,
    RefusalCode::NoPool,
    RefusalCode::NoVolume,
    RefusalCode::OperationInvalid,
    RefusalCode::OperationTimeout,
    RefusalCode::NoSnapshot,
    RefusalCode::OperationAborted,
    RefusalCode::GuestEnded,
    RefusalCode::MonitorLost,
    RefusalCode::TooManyWaiting,
    RefusalCode::ListFull,
    RefusalCode::NotBuilt,
    RefusalCode::Stalled,
    RefusalCode::SnapshotExists,
    RefusalCode::NoFreeSlot,
    RefusalCode::EventsLost,
    RefusalCode::CountSpent,
    RefusalCode::PoolExists,
    RefusalCode::VolumeExists,
];

fn code_numbered(number: u32) -> Option<RefusalCode>
    ensures { result ≡ find (λ code. refusal_number code == number) CODES }
{
    CODES.iter().copied().find(|code| code.number() == number)
}

impl RefusalCode {
    /// The number of the error.
    pub fn number(self) -> u32
        ensures { result ≡ refusal_number self }
    {
        self as u32
    }

    /// The reason with this number.
    pub fn of_number(number: u32) -> Option<RefusalCode>
        ensures some { IfSome result (λ code. refusal_number code ≡ number) }
        ensures none { IfNone result ((code : Code) → refusal_number code ≢ number) }
    {
        code_numbered(number)
    }

    /// The message of the error.
    pub fn message(self) -> &'static str
        ensures { result.now ≡ refusal_message self }
    {
        match self {
            RefusalCode::NoMemory => "no memory",
            RefusalCode::UnknownProcedure => "unknown procedure",
            RefusalCode::InvalidArgument => "invalid argument",
            RefusalCode::OperationFailed => "operation failed",
            RefusalCode::BadDefinition => "bad definition",
            RefusalCode::DomainExists => "domain exists",
            RefusalCode::NetworkExists => "network exists",
            RefusalCode::StoreFailed => "store failed",
            RefusalCode::MalformedCall => "malformed call",
            RefusalCode::NoDomain => "no domain",
            RefusalCode::NoNetwork => "no network",
            RefusalCode::NoPool => "no pool",
            RefusalCode::NoVolume => "no volume",
            RefusalCode::OperationInvalid => "operation invalid",
            RefusalCode::OperationTimeout => "operation timeout",
            RefusalCode::NoSnapshot => "no snapshot",
            RefusalCode::OperationAborted => "operation aborted",
            RefusalCode::GuestEnded => "guest ended",
            RefusalCode::MonitorLost => "monitor lost",
            RefusalCode::TooManyWaiting => "too many waiting",
            RefusalCode::ListFull => "list full",
            RefusalCode::NotBuilt => "not built",
            RefusalCode::Stalled => "stalled",
            RefusalCode::SnapshotExists => "snapshot exists",
            RefusalCode::NoFreeSlot => "no free slot",
            RefusalCode::EventsLost => "events lost",
            RefusalCode::CountSpent => "count spent",
            RefusalCode::PoolExists => "pool exists",
            RefusalCode::VolumeExists => "volume exists",
        }
    }
}

impl fmt::Display for RefusalCode {
    fn fmt<W: fmt::Write>(&self, f: &mut fmt::Formatter<W>) -> fmt::Result {
        f.write_str(self.message())
    }
}

/// Why a call was not done.
#[derive(Debug)]
pub struct Refusal {
    /// The reason.
    pub code: RefusalCode,
    /// What it is about: a name, a number, a place. Empty where nothing is to be said.
    pub kept: Text,
}

impl Drop for Refusal {
    fn drop(self) {
        let Refusal { code: _, kept: _ } = self;
    }
}

impl fmt::Display for Refusal {
    fn fmt<W: fmt::Write>(&self, f: &mut fmt::Formatter<W>) -> fmt::Result {
        write!(f, "{}: {}", self.code, self.kept.as_str())
    }
}

impl Error for Refusal {}

impl TryCopy for Refusal {
    fn copy(&self) -> Result<Refusal, NoMemory> {
        Ok(Refusal {
            code: self.code,
            kept: self.kept.copy()?,
        })
    }
}

/// How many bytes of a text a refusal keeps: those of its longest front of whole characters within
/// 1,024 bytes.
pub fn kept_length(text: &str) -> usize
    ensures place { result ≡ utf8_valid_len (take most_kept_bytes text.now) }
    ensures boundary { IsCharBoundary text.now result }
    ensures short { result ≤ most_kept_bytes }
{
    let bytes = text.as_bytes();
    let front = &bytes[..MOST_KEPT_BYTES.min(bytes.len())];
    match str::from_utf8(front) {
        Ok(_) => front.len(),
        Err(fault) => fault.valid_up_to(),
    }
}

impl Refusal {
    /// A refusal for this reason. Of the text it keeps the longest front of whole characters within
    /// 1,024 bytes.
    pub fn new(alloc: Global, code: RefusalCode, kept: &str) -> Result<Refusal, NoMemory>
        ensures code { IfOk result (λ refusal. refusal.code ≡ code) }
        ensures kept { IfOk result (λ refusal. refusal.kept ≡ kept_cut kept.now) }
    {
        Ok(Refusal {
            code,
            kept: Text::copy_of(alloc, &kept[..kept_length(kept)])?,
        })
    }
}
