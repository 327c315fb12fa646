// What is known of an identifier by its type.
ghost use Rattle.std.specs.Prelude.{◌≡◌, ◌<◌, All, length};
ghost use Rattle.store_spec.specs.FileNames.{IsUuid};

use virt_types::Uuid;

// Each byte fits, which a clause cannot say of an array: this walk reads them, and is compiled away.
#[inline]
fn sixteen_bytes(bytes: &[u8; 16])
    ensures { (length bytes.now ≡ 16) × All (λ b. b < 256) bytes.now }
{
    'bytes: for i in 0..16 {
        let _ = bytes[i];
    }
}

/// An identifier has sixteen bytes.
pub fn known_uuid(uuid: &Uuid)
    ensures { IsUuid uuid.now }
{
    sixteen_bytes(uuid.as_bytes());
}
