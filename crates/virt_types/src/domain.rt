// What a cell of a domain holds: the domain's definitions, its live guest, its snapshots.
use crate::operation::Op;
use crate::run_state::{EndReason, RunState};
use crate::snap_list::SnapList;
use types_base::{Bytes, DomainDef, ListOf, Name, NoMemory, Text, TryCopy, both};
use uuid::Uuid;

/// Slots of devices in order.
pub type SlotList = ListOf<u32>;

/// The live part of a domain: its guest of now.
pub struct Live {
    /// The number of the boot in its cell, from 1.
    pub boot: u64,
    /// What the guest does.
    pub run: RunState,
    /// The definition that the guest has now.
    pub def: DomainDef,
    /// The slot of each device of that definition, 0x02 to 0x1f: first of its disks, then of its
    /// interfaces, in order.
    pub slots: SlotList,
}

impl Drop for Live {
    fn drop(self) {
        let Live {
            boot: _,
            run: _,
            def: _,
            slots: _,
        } = self;
    }
}

impl TryCopy for Live {
    fn copy(&self) -> Result<Live, NoMemory> {
        Ok(Live {
            boot: self.boot,
            run: self.run,
            def: self.def.copy()?,
            slots: self.slots.copy()?,
        })
    }
}

/// What a snapshot is to be, as a caller describes it (libvirt's snapshot XML format).
pub struct SnapInfo {
    /// `name`; without it the daemon gives one.
    pub name: Option<Name>,
    /// `description`.
    pub description: Option<Text>,
}

impl Drop for SnapInfo {
    fn drop(self) {
        let SnapInfo {
            name: _,
            description: _,
        } = self;
    }
}

impl TryCopy for SnapInfo {
    fn copy(&self) -> Result<SnapInfo, NoMemory> {
        Ok(SnapInfo {
            name: self.name.copy()?,
            description: self.description.copy()?,
        })
    }
}

/// A snapshot.
pub struct Snap {
    /// Its name, which no other snapshot of the domain has.
    pub name: Name,
    /// What a caller says of it; empty where nothing was said.
    pub description: Text,
    /// The snapshot that was current when it was taken; none where there was none.
    pub parent: Option<Name>,
    /// What the guest did when it was taken; none where there was no guest.
    pub run: Option<RunState>,
    /// The definition that the domain had then.
    pub def: DomainDef,
    /// The state of the guest, at most 4,096 bytes; empty where there was no guest.
    pub saved: Bytes,
}

impl Drop for Snap {
    fn drop(self) {
        let Snap {
            name: _,
            description: _,
            parent: _,
            run: _,
            def: _,
            saved: _,
        } = self;
    }
}

impl TryCopy for Snap {
    fn copy(&self) -> Result<Snap, NoMemory> {
        let names = both(self.name.copy(), self.parent.copy());
        let guest = both(self.def.copy(), self.saved.copy());
        let (description, ((name, parent), (def, saved))) = both(
            self.description.copy(),
            both(names, guest),
        )?;
        Ok(Snap {
            name,
            description,
            parent,
            run: self.run,
            def,
            saved,
        })
    }
}

/// A domain (libvirt's domain object, `virDomainObj` of `domain_conf.h`). It has a stored
/// definition or a live part, or an operation is to give it one.
pub struct Domain {
    /// Its identifier.
    pub uuid: Uuid,
    /// Its name.
    pub name: Name,
    /// The definition that the store has.
    pub stored: Option<DomainDef>,
    /// Its guest; none where the domain is inactive.
    pub live: Option<Live>,
    /// Whether the daemon starts it when it starts itself.
    pub autostart: bool,
    /// Its snapshots.
    pub snaps: SnapList,
    /// The snapshot that was last taken or gone back to.
    pub current: Option<Name>,
    /// The operation that is under way.
    pub op: Option<Op>,
    /// How many boots its cell has had.
    pub boots: u64,
    /// The number of the boot that ended last, and why it ended.
    pub last: Option<(u64, EndReason)>,
}

impl Drop for Domain {
    fn drop(self) {
        let Domain {
            uuid: _,
            name: _,
            stored: _,
            live: _,
            autostart: _,
            snaps: _,
            current: _,
            op: _,
            boots: _,
            last: _,
        } = self;
    }
}

impl TryCopy for Domain {
    fn copy(&self) -> Result<Domain, NoMemory> {
        let definitions = both(self.stored.copy(), self.live.copy());
        let snapshots = both(self.snaps.copy(), self.current.copy());
        let others = both(self.name.copy(), self.op.copy());
        let ((stored, live), ((snaps, current), (name, op))) = both(
            definitions,
            both(snapshots, others),
        )?;
        Ok(Domain {
            uuid: self.uuid,
            name,
            stored,
            live,
            autostart: self.autostart,
            snaps,
            current,
            op,
            boots: self.boots,
            last: self.last,
        })
    }
}

/// What a cell holds. It serves one domain after another.
pub enum State {
    /// No domain.
    Vacant {
        /// How many boots the cell has had. The count goes on in the next domain.
        boots: u64,
    },
    /// A domain.
    Held(Domain),
}

impl Drop for State {
    fn drop(self) {
        match self {
            State::Vacant { boots: _ } => {}
            State::Held(_) => {}
        }
    }
}

impl TryCopy for State {
    fn copy(&self) -> Result<State, NoMemory> {
        Ok(match self {
            State::Vacant { boots } => State::Vacant { boots: *boots },
            State::Held(it) => State::Held(it.copy()?),
        })
    }
}
