// What a status file says of a boot that was live when it was written.
use crate::operation::{OpKind, Phase};
use crate::run_state::DomainState;
use types_base::{Name, NoMemory, TryCopy};
use uuid::Uuid;

/// A live boot, as its status file reports it after a restart of the daemon.
#[derive(Drop)]
pub struct Status {
    /// The domain's identifier.
    pub uuid: Uuid,
    /// Its name.
    pub name: Name,
    /// The number of the boot, from 1.
    pub boot: u64,
    /// The domain's state.
    pub state: DomainState,
    /// The operation that was under way.
    pub op: Option<OpKind>,
    /// Its phase.
    pub phase: Phase,
}

impl TryCopy for Status {
    fn copy(&self) -> Result<Status, NoMemory> {
        Ok(Status {
            uuid: self.uuid,
            name: self.name.copy()?,
            boot: self.boot,
            state: self.state,
            op: self.op,
            phase: self.phase,
        })
    }
}
