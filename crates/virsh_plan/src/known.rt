// What is known of an identifier by its type.
ghost use Rattle.std.specs.Prelude.{◌≡◌, length};

use virt_types::Uuid;

fn sixteen_bytes(bytes: &[u8; 16])
    ensures { length bytes.now ≡ 16 }
{
    let _first = bytes[0];
}

/// An identifier has sixteen bytes.
pub(crate) fn known_uuid(uuid: &Uuid)
    ensures { length uuid.now ≡ 16 }
{
    sixteen_bytes(uuid.as_bytes());
}
