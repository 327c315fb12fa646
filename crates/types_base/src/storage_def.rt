// The definitions of a storage pool and of a volume, with one field for each row of their element tables.
use crate::copy::TryCopy;
use crate::memory::NoMemory;
use crate::name::Name;
use crate::text::Text;
use uuid::Uuid;

/// What a pool is: the attribute `type`.
#[derive(Clone, Copy, Debug, PartialEq, Eq)]
pub enum PoolType {
    /// `dir`: a directory.
    Dir,
}

/// The definition of a storage pool (libvirt's storage pool XML format, in this project's profile).
#[derive(Drop)]
pub struct PoolDef {
    /// The attribute `type`.
    pub kind: PoolType,
    /// `name`.
    pub name: Name,
    /// `uuid`; none before it is filled in.
    pub uuid: Option<Uuid>,
    /// `capacity`: how many bytes its volumes may take together, 1 to 2^60.
    pub capacity: u64,
    /// `target/path`.
    pub path: Text,
}

impl TryCopy for PoolDef {
    fn copy(&self) -> Result<PoolDef, NoMemory> {
        Ok(PoolDef {
            kind: self.kind,
            name: self.name.copy()?,
            uuid: self.uuid,
            capacity: self.capacity,
            path: self.path.copy()?,
        })
    }
}

/// The definition of a volume (libvirt's storage volume XML format, in this project's profile).
#[derive(Drop)]
pub struct VolDef {
    /// `name`.
    pub name: Name,
    /// `capacity`: how many bytes its content may have, 0 to 2^60.
    pub capacity: u64,
    /// `allocation`: how many bytes it takes of its pool, 0 to 2^60.
    pub allocation: u64,
    /// `target/format` with `type`, by default `raw`.
    pub format: Text,
}

impl TryCopy for VolDef {
    fn copy(&self) -> Result<VolDef, NoMemory> {
        Ok(VolDef {
            name: self.name.copy()?,
            capacity: self.capacity,
            allocation: self.allocation,
            format: self.format.copy()?,
        })
    }
}
