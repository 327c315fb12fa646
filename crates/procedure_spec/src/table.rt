// The tables of both programs.
ghost use Rattle.std.specs.Prelude.{◌≡◌};
ghost use Rattle.procedure_spec.specs.Procedures.{row_of};

use crate::procedure::Procedure;
use crate::shape::{ArgumentShape, ResultShape, TargetShape};

/// A line of the programs' tables.
#[derive(Clone, Copy, Debug, PartialEq, Eq)]
pub struct Row {
    /// The program that the procedure belongs to.
    pub program: u32,
    /// Its number there.
    pub number: u32,
    /// Which it is.
    pub procedure: Procedure,
    /// What a call is for.
    pub target: TargetShape,
    /// What a call holds beside that.
    pub arguments: ArgumentShape,
    /// What the reply holds.
    pub result: ResultShape,
}

/// The number of libvirt's remote program (`REMOTE_PROGRAM` of `remote_protocol.x`).
pub const REMOTE: u32 = 0x2000_8086;

/// The number of this project's own program.
pub const OWN: u32 = 0x2000_8f01;

macro_rules! row {
    ($program:ident, $number:literal, $procedure:ident($target:ident, $arguments:ident) -> $result:ident) => {
        Row {
            program: $program,
            number: $number,
            procedure: Procedure::$procedure,
            target: TargetShape::$target,
            arguments: ArgumentShape::$arguments,
            result: ResultShape::$result,
        }
    };
}

/// The procedures of both programs, in their version 1, by rising number. The numbers 12 and 13 of
/// the second program are those of its messages, which nobody calls.
pub const PROCEDURES: [Row; 66] = [
    row!(REMOTE, 1, ConnectOpen(Nothing, OptionalNameWord) -> Nothing),
    row!(REMOTE, 2, ConnectClose(Nothing, Nothing) -> Nothing),
    row!(REMOTE, 8, DomainAttachDevice(Domain, Definition) -> Nothing),
    row!(REMOTE, 9, DomainCreate(Domain, Nothing) -> Nothing),
    row!(REMOTE, 10, DomainCreateXml(Nothing, DefinitionInteger) -> Domain),
    row!(REMOTE, 11, DomainDefineXml(Nothing, Definition) -> Domain),
    row!(REMOTE, 12, DomainDestroy(Domain, Nothing) -> Nothing),
    row!(REMOTE, 13, DomainDetachDevice(Domain, Definition) -> Nothing),
    row!(REMOTE, 14, DomainGetXmlDesc(Domain, Word) -> Text),
    row!(REMOTE, 15, DomainGetAutostart(Domain, Nothing) -> Autostart),
    row!(REMOTE, 16, DomainGetInfo(Domain, Nothing) -> Info),
    row!(REMOTE, 21, ConnectListDefinedDomains(Nothing, Integer) -> Names),
    row!(REMOTE, 23, DomainLookupByName(Nothing, Name) -> Domain),
    row!(REMOTE, 24, DomainLookupByUuid(Nothing, Uuid) -> Domain),
    row!(REMOTE, 27, DomainReboot(Domain, Word) -> Nothing),
    row!(REMOTE, 28, DomainResume(Domain, Nothing) -> Nothing),
    row!(REMOTE, 29, DomainSetAutostart(Domain, Integer) -> Nothing),
    row!(REMOTE, 31, DomainSetMemory(Domain, DoubleWord) -> Nothing),
    row!(REMOTE, 32, DomainSetVcpus(Domain, Word) -> Nothing),
    row!(REMOTE, 33, DomainShutdown(Domain, Nothing) -> Nothing),
    row!(REMOTE, 34, DomainSuspend(Domain, Nothing) -> Nothing),
    row!(REMOTE, 35, DomainUndefine(Domain, Nothing) -> Nothing),
    row!(REMOTE, 36, ConnectListDefinedNetworks(Nothing, Integer) -> Names),
    row!(REMOTE, 38, ConnectListNetworks(Nothing, Integer) -> Names),
    row!(REMOTE, 39, NetworkCreate(Network, Nothing) -> Nothing),
    row!(REMOTE, 41, NetworkDefineXml(Nothing, Definition) -> Network),
    row!(REMOTE, 42, NetworkDestroy(Network, Nothing) -> Nothing),
    row!(REMOTE, 43, NetworkGetXmlDesc(Network, Word) -> Text),
    row!(REMOTE, 46, NetworkLookupByName(Nothing, Name) -> Network),
    row!(REMOTE, 48, NetworkSetAutostart(Network, Integer) -> Nothing),
    row!(REMOTE, 49, NetworkUndefine(Network, Nothing) -> Nothing),
    row!(REMOTE, 53, DomainCoreDump(Domain, NameWord) -> Nothing),
    row!(REMOTE, 54, DomainRestore(Nothing, Name) -> Nothing),
    row!(REMOTE, 55, DomainSave(Domain, Name) -> Nothing),
    row!(OWN, 1, ListAll(Nothing, Nothing) -> Domains),
    row!(OWN, 2, JobInfo(Domain, Nothing) -> Job),
    row!(OWN, 3, JobAbort(Domain, Nothing) -> Nothing),
    row!(OWN, 4, SnapCreate(Domain, Definition) -> Name),
    row!(OWN, 5, SnapList(Domain, Nothing) -> Names),
    row!(OWN, 6, SnapParent(Domain, Name) -> OptionalName),
    row!(OWN, 7, SnapDelete(Domain, NameInteger) -> Nothing),
    row!(OWN, 8, SnapRevert(Domain, Name) -> Nothing),
    row!(OWN, 9, SnapXml(Domain, Name) -> Text),
    row!(OWN, 10, EventRegister(Domain, Nothing) -> Nothing),
    row!(OWN, 11, EventDeregister(Domain, Nothing) -> Nothing),
    row!(OWN, 14, MemoryStats(Domain, Nothing) -> DoubleWord),
    row!(OWN, 15, Kick(Domain, Integer) -> Nothing),
    row!(OWN, 16, Titles(Nothing, Nothing) -> Titles),
    row!(OWN, 20, PoolDefine(Nothing, Definition) -> Pool),
    row!(OWN, 21, PoolCreate(Pool, Nothing) -> Nothing),
    row!(OWN, 22, PoolDestroy(Pool, Nothing) -> Nothing),
    row!(OWN, 23, PoolUndefine(Pool, Nothing) -> Nothing),
    row!(OWN, 24, PoolXml(Pool, Nothing) -> Text),
    row!(OWN, 25, PoolLookup(Nothing, Name) -> Pool),
    row!(OWN, 26, PoolList(Nothing, Nothing) -> Pools),
    row!(OWN, 27, PoolAutostart(Pool, Integer) -> Nothing),
    row!(OWN, 30, VolCreate(Pool, Definition) -> Name),
    row!(OWN, 31, VolDelete(Pool, Name) -> Nothing),
    row!(OWN, 32, VolList(Pool, Nothing) -> Names),
    row!(OWN, 33, VolXml(Pool, Name) -> Text),
    row!(OWN, 40, Leases(Network, Nothing) -> Leases),
    row!(OWN, 50, MigratePerform(Domain, Nothing) -> Migrated),
    row!(OWN, 51, MigrateConfirm(Domain, Integer) -> Nothing),
    row!(OWN, 52, MigratePrepare(Nothing, DefinitionIntegerState) -> Domain),
    row!(OWN, 53, MigrateFinish(Domain, Integer) -> Nothing),
    row!(OWN, 54, MigrateLimit(Domain, DoubleWord) -> Nothing),
];

/// The line of the procedure with this number in this program.
#[tactic(auto, unfolding(crate::specs::Procedures::row_of))]
pub fn find(program: u32, number: u32) -> Option<Row>
    ensures { result ≡ row_of program number }
{
    PROCEDURES
        .iter()
        .copied()
        .find(|row| row.program == program && row.number == number)
}
