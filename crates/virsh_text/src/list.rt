// Lists, an entry a line.
ghost use Rattle.std.specs.Prelude.{◌≡◌, ◌++◌, IfOk, OnOk};
ghost use Rattle.std.specs.String.{string_bytes};
ghost use Rattle.command_spec.specs.Columns.{◌then◌, address_text as address_text_of, line as line_of, lines as lines_of};
ghost use Rattle.command_spec.specs.Printed as spec;
ghost use Rattle.virt_types.specs.Mac.{mac_text as mac_text_of};

use std::alloc::Global;
use virt_types::{LeaseRow, Name, NoMemory, PoolRow, Text};
use xml_words::mac_text;

// A text in a line of its own, after what is there.
fn push_line(text: &mut String, line: &str) -> Result<(), NoMemory>
    ensures { OnOk result (string_bytes text.new ≡ string_bytes text.old ++ line_of line.now) }
{
    text.push_str(line)?;
    text.push_str("\n")?;
    Ok(())
}

// Names after what is there.
fn push_names(text: &mut String, names: &[Name]) -> Result<(), NoMemory>
    ensures { OnOk result (string_bytes text.new ≡ string_bytes text.old ++ lines_of names.now) }
{
    for name in names {
        push_line(text, name.as_str())?;
    }
    Ok(())
}

/// Names, one a line.
pub(crate) fn names_text(alloc: Global, names: &[Name]) -> Result<Text, NoMemory>
    ensures { IfOk result (λ text. text ≡ spec.names_text names.now) }
{
    let mut text = String::new(alloc);
    push_names(&mut text, names)?;
    Ok(Text::of(text))
}

/// The names of networks, the active ones first.
pub(crate) fn networks_text(
    alloc: Global,
    active: &[Name],
    inactive: &[Name],
) -> Result<Text, NoMemory>
    ensures { IfOk result (λ text. text ≡ spec.networks_text active.now inactive.now) }
{
    let mut text = String::new(alloc);
    push_names(&mut text, active)?;
    push_names(&mut text, inactive)?;
    Ok(Text::of(text))
}

fn activity(active: bool) -> &'static str
    ensures { result.now ≡ spec.activity active }
{
    if active { "active" } else { "inactive" }
}

// A pool, and whether it is active, after what is there.
fn push_pool(text: &mut String, row: &PoolRow) -> Result<(), NoMemory>
    ensures { OnOk result (string_bytes text.new ≡ string_bytes text.old ++ line_of (row.now.name then spec.activity row.now.active)) }
{
    text.push_str(row.name.as_str())?;
    text.push_str(" ")?;
    push_line(text, activity(row.active))
}

// Pools after what is there.
fn push_pools(text: &mut String, rows: &[PoolRow]) -> Result<(), NoMemory>
    ensures { OnOk result (string_bytes text.new ≡ string_bytes text.old ++ spec.pools_text rows.now) }
{
    for row in rows {
        push_pool(text, row)?;
    }
    Ok(())
}

/// Pools, and whether each is active.
pub(crate) fn pools_text(alloc: Global, rows: &[PoolRow]) -> Result<Text, NoMemory>
    ensures { IfOk result (λ text. text ≡ spec.pools_text rows.now) }
{
    let mut text = String::new(alloc);
    push_pools(&mut text, rows)?;
    Ok(Text::of(text))
}

// An address, its first byte the highest.
fn address_text(alloc: Global, address: u32) -> Result<String, NoMemory>
    ensures { IfOk result (λ text. string_bytes text ≡ address_text_of address) }
{
    let (first, second) = (address / 0x100_0000, address / 0x1_0000 % 0x100);
    let (third, fourth) = (address / 0x100 % 0x100, address % 0x100);
    Ok(format!(in alloc; "{first}.{second}.{third}.{fourth}")?)
}

// A lease, an interface and its address, after what is there.
fn push_lease(text: &mut String, alloc: Global, row: &LeaseRow) -> Result<(), NoMemory>
    ensures { OnOk result (string_bytes text.new ≡ string_bytes text.old ++ line_of (mac_text_of row.now.mac then address_text_of row.now.address)) }
{
    let (mac, address) = (mac_text(alloc, row.mac)?, address_text(alloc, row.address)?);
    text.push_str(mac.as_str())?;
    text.push_str(" ")?;
    push_line(text, address.as_str())
}

// Leases after what is there.
fn push_leases(text: &mut String, alloc: Global, rows: &[LeaseRow]) -> Result<(), NoMemory>
    ensures { OnOk result (string_bytes text.new ≡ string_bytes text.old ++ spec.leases_text rows.now) }
{
    for row in rows {
        push_lease(text, alloc, row)?;
    }
    Ok(())
}

/// Leases, each an interface and its address.
pub(crate) fn leases_text(alloc: Global, rows: &[LeaseRow]) -> Result<Text, NoMemory>
    ensures { IfOk result (λ text. text ≡ spec.leases_text rows.now) }
{
    let mut text = String::new(alloc);
    push_leases(&mut text, alloc, rows)?;
    Ok(Text::of(text))
}
