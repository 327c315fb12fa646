// The keys of rows.
ghost use Rattle.std.specs.Prelude.{◌≡◌, IfOk};
ghost use Rattle.def_map.specs.Map as spec;

use std::alloc::Global;
use store_spec::BookKind;
use types_base::{Name, NoMemory, Uuid};

/// The most bytes of a key: that of a kind, and those of a name.
pub(crate) const MOST_KEY: usize = 129;

/// The byte that stands for a kind.
pub(crate) fn kind_byte(kind: BookKind) -> u8
    ensures { result ≡ spec.kind_byte kind }
{
    match kind {
        BookKind::Domain => 0,
        BookKind::Network => 1,
        BookKind::Pool => 2,
    }
}

/// The bytes under which an identifier of a kind has its row.
pub(crate) fn uuid_key(kind: BookKind, uuid: Uuid) -> [u8; 17]
    ensures { result ≡ spec.key_of kind uuid }
{
    let mut key = [0u8; 17];
    key[0] = kind_byte(kind);
    key[1..].copy_from_slice(uuid.as_bytes().as_slice());
    key
}

/// The bytes under which a name of a kind has its row. It takes no memory.
pub(crate) fn name_key<'a>(buffer: &'a mut [u8; MOST_KEY], kind: BookKind, name: &Name) -> &'a [u8]
    ensures { result.now ≡ spec.key_of kind name.now }
{
    let name = name.as_bytes();
    buffer[0] = kind_byte(kind);
    buffer[1..name.len() + 1].copy_from_slice(name);
    &buffer[..name.len() + 1]
}

/// The key of the row of a name of a kind.
pub fn key_of(alloc: Global, kind: BookKind, name: &Name) -> Result<Vec<u8>, NoMemory>
    ensures { IfOk result (λ key. key.items ≡ spec.key_of kind name.now) }
{
    let mut buffer = [0u8; MOST_KEY];
    Ok(Vec::from_slice(alloc, name_key(&mut buffer, kind, name))?)
}

/// The keys under which a definition gets its rows: that of its entry twice, since one is kept for
/// later, and that of its name.
#[derive(Drop)]
pub(crate) struct Keys {
    pub entry: Vec<u8>,
    pub spare: Vec<u8>,
    pub name: Vec<u8>,
}

pub(crate) fn keys_of(
    alloc: Global,
    kind: BookKind,
    uuid: Uuid,
    name: &Name,
) -> Result<Keys, NoMemory>
    ensures entry { IfOk result (λ keys. keys.entry.items ≡ spec.key_of kind uuid) }
    ensures spare { IfOk result (λ keys. keys.spare.items ≡ spec.key_of kind uuid) }
    ensures name { IfOk result (λ keys. keys.name.items ≡ spec.key_of kind name.now) }
{
    let key = uuid_key(kind, uuid);
    let entry = Vec::from_slice(alloc, key.as_slice())?;
    let spare = Vec::from_slice(alloc, key.as_slice())?;
    let name = key_of(alloc, kind, name)?;
    Ok(Keys { entry, spare, name })
}
