// What crashes may leave of three definitions, as the bits of a number: those that may be there, after so many operations.

/// Of three puts, one after another.
pub(crate) const THREE_PUTS: [&[u32]; 13] = [
    &[0],
    &[0],
    &[0],
    &[0, 1],
    &[1],
    &[1],
    &[1],
    &[1, 3],
    &[3],
    &[3],
    &[3],
    &[3, 7],
    &[7],
];

/// Of a put, one whose sync of the directory failed, the drop of that one, and another put. After the
/// eighth operation a crash may lose both the rename and the removal.
pub(crate) const DROPPED_FIRST: [&[u32]; 14] = [
    &[0],
    &[0],
    &[0],
    &[0, 1],
    &[1],
    &[1],
    &[1],
    &[1, 3],
    &[1, 3],
    &[1],
    &[1],
    &[1],
    &[1, 5],
    &[5],
];

/// Whether what a crash leaves is one of these, which it then adds to those seen.
pub(crate) fn is_one_of(found: Option<u32>, sets: &[u32], seen: &mut u32) -> bool {
    match found {
        Some(found) if found < 8 && sets.contains(&found) => {
            *seen |= 1 << found;
            true
        }
        _ => false,
    }
}
