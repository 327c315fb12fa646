// The names of domains that are not active.
ghost use Rattle.std.specs.Prelude.{◌≡◌, IfOk, map, take};
ghost use Rattle.std.specs.List.{filter};
ghost use Rattle.driver_lists.specs.Idle.{is_idle};

use std::alloc::Global;
use virt_types::{DomainRow, DomainState, Name, NoMemory, TryCopy};

// Whether a row is of a domain that is not active.
fn is_idle(row: &DomainRow) -> bool
    ensures { result ≡ is_idle row.now }
{
    match row.state {
        DomainState::ShutOff => true,
        DomainState::Running => false,
        DomainState::Paused => false,
        DomainState::Crashed => false,
    }
}

// Of the domains that are not active the names, in order.
fn all_idle(alloc: Global, rows: &[DomainRow]) -> Result<Vec<Name>, NoMemory>
    ensures { IfOk result (λ names. names.items ≡ map (λ row. row.domain.name) (filter is_idle rows.now)) }
{
    let mut names = Vec::new(alloc);
    for row in rows {
        if is_idle(row) {
            names.push(row.domain.name.copy()?)?;
        }
    }
    Ok(names)
}

/// At most so many of them.
pub(crate) fn idle_names(
    alloc: Global,
    rows: &[DomainRow],
    most: u32,
) -> Result<Vec<Name>, NoMemory>
    ensures { IfOk result (λ names. names.items ≡ take most (map (λ row. row.domain.name) (filter is_idle rows.now))) }
{
    let mut names = all_idle(alloc, rows)?;
    names.truncate(most as usize);
    Ok(names)
}
