// A walk over the rows of one kind.
ghost use Rattle.std.specs.Prelude.{◌≡◌, IfOk, map, option_copied, bytes_eq};
ghost use Rattle.std.specs.Cmp.Lexicographic.{slice_cmp};
ghost use Rattle.std.specs.HashMap.{IsUnique};
ghost use Rattle.std.specs.List.Sorted.{IsPermutation, IsSortedBy};
ghost use Rattle.std.specs.Ordering.{is_lt, nat_cmp};
ghost use Rattle.def_map.specs.Rows.{rows_in};
ghost use Rattle.def_map.specs.Walk as spec;

use crate::keys::kind_byte;
use std::alloc::Global;
use std::collections::HashMap;
use store_spec::{BookKind, Entry};
use types_base::NoMemory;

// Whether a row is of this kind.
fn is_of(kind: BookKind, key: &[u8]) -> bool
    ensures { result ≡ spec.is_of kind key.now }
{
    match key.first() {
        Some(byte) => *byte == kind_byte(kind),
        None => false,
    }
}

// The entry in a row, if the row is of this kind.
fn entry_at<'a>(kind: BookKind, key: &[u8], row: &'a Option<Entry>) -> Option<&'a Entry>
    ensures { option_copied result ≡ spec.entry_at kind (key.now, row.now) }
{
    if is_of(kind, key) { row.as_ref() } else { None }
}

/// The entries in the rows of this kind, in no order.
pub(crate) fn picked<'a>(
    alloc: Global,
    kind: BookKind,
    rows: &'a HashMap<Vec<u8>, Option<Entry>>,
) -> Result<Vec<&'a Entry>, NoMemory>
    ensures picked { IfOk result (λ entries. map (λ e. e.now) entries.items ≡ spec.picked kind (rows_in rows.now.entries)) }
    ensures unique { IsUnique (λ x y. bytes_eq x.items y.items) rows.now }
{
    let mut entries = Vec::new(alloc);
    for (key, row) in rows {
        if let Some(entry) = entry_at(kind, key.as_slice(), row) {
            entries.push(entry)?;
        }
    }
    Ok(entries)
}

/// The same entries by rising name. It takes no memory.
pub(crate) fn risen(mut entries: Vec<&Entry>) -> Vec<&Entry>
    ensures same { IsPermutation entries.entry.items result.items }
    ensures rising { IsSortedBy (λ one other. is_lt (slice_cmp nat_cmp one.now.name other.now.name)) result.items }
{
    entries.sort_unstable_by(|one, other| one.name.as_str().cmp(other.name.as_str()));
    entries
}
