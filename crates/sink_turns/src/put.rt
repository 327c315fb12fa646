// Bytes on their way to the sink. Where it fails, a front of them was taken, and how long it is is
// answered.
ghost use Rattle.std.specs.Prelude.{◌≡◌, ◌<◌, ◌≤◌, ◌+◌, ◌++◌, ◌^◌, [], length, vec_len};
ghost use Rattle.outside_spec.specs.Faults.{HasCause};
ghost use Rattle.sink_turns.specs.Putting.{Takes, TakesAfter};

use packet::Sink;
use types_base::Failed;

/// Puts all the bytes, piece by piece as the sink takes them.
pub(crate) fn put_all<K: Sink>(sink: &mut K, bytes: &[u8]) -> Result<(), usize>
    ensures taken { Takes (K.held sink.old) (K.held sink.new) bytes.now result }
    ensures cause { HasCause (K.faults sink.old) (K.faults sink.new) result }
{
    let mut sent = 0;
    while sent < bytes.len() {
        match sink.put(bytes.split_at(sent).1) {
            Ok(count) => sent += count,
            Err(Failed) => return Err(sent),
        }
    }
    Ok(())
}

// Puts what waits and then the bytes, one after the other.
fn put_both<K: Sink>(sink: &mut K, waits: &[u8], bytes: &[u8]) -> Result<(), usize>
    ensures taken { Takes (K.held sink.old) (K.held sink.new) (waits.now ++ bytes.now) result }
    ensures cause { HasCause (K.faults sink.old) (K.faults sink.new) result }
{
    match put_all(sink, waits) {
        Ok(()) => put_after(sink, waits.len(), bytes),
        Err(count) => Err(count),
    }
}

// Puts the bytes, where so many were put before them.
fn put_after<K: Sink>(sink: &mut K, before: usize, bytes: &[u8]) -> Result<(), usize>
    requires { before + length bytes.now < 2 ^ 64 }
    ensures taken { TakesAfter before (K.held sink.old) (K.held sink.new) bytes.now result }
    ensures cause { HasCause (K.faults sink.old) (K.faults sink.new) result }
{
    match put_all(sink, bytes) {
        Ok(()) => Ok(()),
        Err(count) => Err(before + count),
    }
}

// Puts what waits, which is something, and then the bytes: in one piece where there is room.
fn put_behind<K: Sink>(
    sink: &mut K,
    waits: &mut Vec<u8>,
    bytes: &[u8],
    room: usize,
) -> Result<(), usize>
    requires { vec_len waits.old ≤ room }
    ensures taken { Takes (K.held sink.old) (K.held sink.new) (waits.old.items ++ bytes.now) result }
    ensures cause { HasCause (K.faults sink.old) (K.faults sink.new) result }
{
    if bytes.len() > room - waits.len() {
        return put_both(sink, waits, bytes);
    }
    match waits.extend_from_slice(bytes) {
        Ok(()) => put_all(sink, waits),
        Err(_) => put_both(sink, waits, bytes),
    }
}

/// Puts what waits and then the bytes, in one piece where there is room for both. Then nothing waits.
pub(crate) fn put_with<K: Sink>(
    sink: &mut K,
    waits: &mut Vec<u8>,
    bytes: &[u8],
    room: usize,
) -> Result<(), usize>
    requires { vec_len waits.old ≤ room }
    ensures taken { Takes (K.held sink.old) (K.held sink.new) (waits.old.items ++ bytes.now) result }
    ensures none { waits.new.items ≡ [] }
    ensures cause { HasCause (K.faults sink.old) (K.faults sink.new) result }
{
    if waits.is_empty() {
        return put_all(sink, bytes);
    }
    let put = put_behind(sink, waits, bytes, room);
    waits.clear();
    put
}
