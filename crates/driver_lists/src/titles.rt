// The titles of the domains that a store keeps.
ghost use Rattle.std.specs.Prelude.{◌≡◌, IfOk, map};
ghost use Rattle.def_map.specs.Map.{found};
ghost use Rattle.driver_cells.specs.OfOutcomes.{AreTitles, title_row};

use def_map::DefMap;
use std::alloc::Global;
use store_spec::{BookKind, Entry};
use virt_types::{ListOf, NoMemory, Text, TitleRow, TitleRowList, TryCopy, kept_length};

// A domain with its title.
fn title_row(alloc: Global, entry: &Entry) -> Result<TitleRow, NoMemory>
    ensures { IfOk result (λ row. row ≡ title_row entry.now) }
{
    let title = entry.title.as_str();
    Ok(TitleRow {
        name: entry.name.copy()?,
        title: Text::copy_of(alloc, &title[..kept_length(title)])?,
    })
}

// Those of these entries, in order.
fn rows_of(alloc: Global, entries: &[&Entry]) -> Result<Vec<TitleRow>, NoMemory>
    ensures { IfOk result (λ rows. rows.items ≡ map (λ entry. title_row entry.now) entries.now) }
{
    let mut rows = Vec::new(alloc);
    for entry in entries {
        rows.push(title_row(alloc, *entry)?)?;
    }
    Ok(rows)
}

// The titles of all domains, by rising name.
fn rows_in(alloc: Global, map: &DefMap) -> Result<Vec<TitleRow>, NoMemory>
    ensures { IfOk result (λ rows. AreTitles (found map.now) rows.items) }
{
    let entries = map.entries(BookKind::Domain)?;
    rows_of(alloc, entries.as_slice())
}

/// The same.
pub(crate) fn titles(alloc: Global, map: &DefMap) -> Result<TitleRowList, NoMemory>
    ensures { IfOk result (AreTitles (found map.now)) }
{
    Ok(ListOf::of(rows_in(alloc, map)?))
}
