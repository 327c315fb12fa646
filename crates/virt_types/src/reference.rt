// How the wire refers to domains, networks and pools.
use types_base::{Name, NoMemory, Text, TryCopy};
use uuid::Uuid;

/// A domain as replies and messages name it (`remote_nonnull_domain` of libvirt's
/// `remote_protocol.x`).
pub struct DomainRef {
    /// Its name.
    pub name: Name,
    /// Its identifier.
    pub uuid: Uuid,
    /// The number of its live boot, or 2,147,483,647 where that is greater; -1 where none is live.
    pub id: i32,
}

impl Drop for DomainRef {
    fn drop(self) {
        let DomainRef {
            name: _,
            uuid: _,
            id: _,
        } = self;
    }
}

impl TryCopy for DomainRef {
    fn copy(&self) -> Result<DomainRef, NoMemory> {
        Ok(DomainRef {
            name: self.name.copy()?,
            uuid: self.uuid,
            id: self.id,
        })
    }
}

/// A network as replies name it (`remote_nonnull_network`).
#[derive(Drop)]
pub struct NetworkRef {
    /// Its name.
    pub name: Name,
    /// Its identifier.
    pub uuid: Uuid,
}

impl TryCopy for NetworkRef {
    fn copy(&self) -> Result<NetworkRef, NoMemory> {
        Ok(NetworkRef {
            name: self.name.copy()?,
            uuid: self.uuid,
        })
    }
}

/// A pool as replies name it (`remote_nonnull_storage_pool`).
#[derive(Drop)]
pub struct PoolRef {
    /// Its name.
    pub name: Name,
    /// Its identifier.
    pub uuid: Uuid,
}

impl TryCopy for PoolRef {
    fn copy(&self) -> Result<PoolRef, NoMemory> {
        Ok(PoolRef {
            name: self.name.copy()?,
            uuid: self.uuid,
        })
    }
}

/// The domain that a call is for. The identifier alone says which; the rest is passed over, so
/// its name may be any text.
#[derive(Drop)]
pub struct DomainTarget {
    /// What the caller takes its name for.
    pub name: Text,
    /// Its identifier.
    pub uuid: Uuid,
    /// What the caller takes its number for.
    pub id: i32,
}

impl TryCopy for DomainTarget {
    fn copy(&self) -> Result<DomainTarget, NoMemory> {
        Ok(DomainTarget {
            name: self.name.copy()?,
            uuid: self.uuid,
            id: self.id,
        })
    }
}

/// The network that a call is for. The identifier alone says which.
#[derive(Drop)]
pub struct NetworkTarget {
    /// What the caller takes its name for.
    pub name: Text,
    /// Its identifier.
    pub uuid: Uuid,
}

impl TryCopy for NetworkTarget {
    fn copy(&self) -> Result<NetworkTarget, NoMemory> {
        Ok(NetworkTarget {
            name: self.name.copy()?,
            uuid: self.uuid,
        })
    }
}

/// The pool that a call is for. The identifier alone says which.
#[derive(Drop)]
pub struct PoolTarget {
    /// What the caller takes its name for.
    pub name: Text,
    /// Its identifier.
    pub uuid: Uuid,
}

impl TryCopy for PoolTarget {
    fn copy(&self) -> Result<PoolTarget, NoMemory> {
        Ok(PoolTarget {
            name: self.name.copy()?,
            uuid: self.uuid,
        })
    }
}
