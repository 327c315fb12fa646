// Messages on their way to the sink.
ghost use Rattle.std.specs.Prelude.{◌≡◌, ◌<◌, ℕ, take, length, OnOk, OnErr};
ghost use Rattle.std.specs.Io.KnownBytes.{Appends};
ghost use Rattle.outside_spec.specs.Faults.{HasCause};

use crate::outside::Sink;
use types_base::Failed;

/// Puts all the bytes, piece by piece as the sink takes them. After an `Err` it took a front of them, and not all.
pub fn put_all<K: Sink>(sink: &mut K, bytes: &[u8]) -> Result<(), Failed>
    ensures ok { OnOk result (Appends (K.held sink.old) (K.held sink.new) bytes.now) }
    ensures err { OnErr result ((n : ℕ) × (n < length bytes.now)
        × Appends (K.held sink.old) (K.held sink.new) (take n bytes.now)) }
    ensures cause { HasCause (K.faults sink.old) (K.faults sink.new) result }
{
    let mut sent = 0;
    while sent < bytes.len() {
        match sink.put(bytes.split_at(sent).1) {
            Ok(count) => sent += count,
            Err(Failed) => return Err(Failed),
        }
    }
    Ok(())
}
