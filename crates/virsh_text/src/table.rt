// The table of `list`.
ghost use Rattle.std.specs.Prelude.{◌≡◌, ◌++◌, IfOk, OnOk};
ghost use Rattle.std.specs.List.{filter, flat_map};
ghost use Rattle.std.specs.String.{string_bytes};
ghost use Rattle.command_spec.specs.Printed as spec;
ghost use Rattle.virsh_text.specs.Rows.{IsOrdered};

use crate::column::row_text;
use std::alloc::Global;
use virt_types::{DomainRow, DomainRowList, NoMemory, Text, TryCopy};

// A domain is active where a boot is live.
fn is_active(row: &DomainRow) -> bool
    ensures { result ≡ spec.is_active row.now }
{
    row.domain.id >= 0
}

// The active ones of these.
fn active(rows: Vec<DomainRow>) -> Vec<DomainRow>
    ensures { result.items ≡ filter spec.is_active rows.items }
{
    let mut rows = rows;
    rows.retain(|row| is_active(row));
    rows
}

// The rows that are shown: all, or the active ones.
fn shown(all: bool, rows: &DomainRowList) -> Result<Vec<DomainRow>, NoMemory>
    ensures { IfOk result (λ shown. shown.items ≡ spec.shown all rows.now) }
{
    let rows = rows.copy()?.into_vec();
    if all { Ok(rows) } else { Ok(active(rows)) }
}

// The rows that are shown, by rising name.
fn ordered(all: bool, rows: &DomainRowList) -> Result<Vec<DomainRow>, NoMemory>
    ensures { IfOk result (λ ordered. IsOrdered all rows.now ordered.items) }
{
    let mut rows = shown(all, rows)?;
    rows.sort_by(|one, other| one.domain.name.as_str().cmp(other.domain.name.as_str()))?;
    Ok(rows)
}

// The row of a domain, which has the number of its live boot.
fn domain_row(alloc: Global, row: &DomainRow) -> Result<String, NoMemory>
    ensures { IfOk result (λ text. string_bytes text ≡ spec.domain_row row.now) }
{
    let (name, state) = (row.domain.name.as_str(), row.state.word());
    if row.domain.id < 0 {
        return row_text(alloc, "-", name, state);
    }
    let id = row.domain.id.to_string(alloc)?;
    row_text(alloc, id.as_str(), name, state)
}

// The row of a domain after what is there.
fn push_row(text: &mut String, alloc: Global, row: &DomainRow) -> Result<(), NoMemory>
    ensures { OnOk result (string_bytes text.new ≡ string_bytes text.old ++ spec.domain_row row.now) }
{
    let row = domain_row(alloc, row)?;
    text.push_str(row.as_str())?;
    Ok(())
}

// Rows after what is there.
fn push_rows(text: &mut String, alloc: Global, rows: &[DomainRow]) -> Result<(), NoMemory>
    ensures { OnOk result (string_bytes text.new ≡ string_bytes text.old ++ flat_map spec.domain_row rows.now) }
{
    for row in rows {
        push_row(text, alloc, row)?;
    }
    Ok(())
}

/// The table of all domains, or of the active ones, by rising name.
pub(crate) fn table(alloc: Global, all: bool, rows: &DomainRowList) -> Result<Text, NoMemory>
    ensures { IfOk result (spec.IsTable all rows.now) }
{
    let rows = ordered(all, rows)?;
    let mut text = row_text(alloc, "Id", "Name", "State")?;
    push_rows(&mut text, alloc, rows.as_slice())?;
    Ok(Text::of(text))
}
