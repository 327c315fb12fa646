// The domains of a driver are made, one for each slot of the list.
ghost use Rattle.std.specs.Prelude.{◌≡◌, ◌≤◌, IfOk, OnOk, length};
ghost use Rattle.virt_types.specs.Limits.{most_domains};
ghost use Rattle.driver_cells.specs.OfCells.{new_cell};
ghost use Rattle.driver_open.specs.Slots.{AreFirst, IsPushed, cells_of, found_cell};

use driver_cells::{DomainCell, DomainObj};
use driver_store::FoundDomain;
use monitor_link::Guests;
use pass_rows::{PassState, RestingPass};
use std::alloc::Global;
use virt_types::{DomainDef, ListOf, MOST_DOMAINS, NoMemory, TryCopy};

/// The domains in the slots, and the first pass of each.
#[derive(Drop)]
pub(crate) struct Slots<G: Guests> {
    pub(crate) domains: ListOf<DomainObj<G>>,
    pub(crate) passes: ListOf<RestingPass<DomainCell<G>>>,
}

// Makes the domain of the next slot, and its first pass.
fn push<G: Guests>(
    alloc: Global,
    slots: &mut Slots<G>,
    stored: Option<DomainDef>,
    autostart: bool,
) -> Result<(), NoMemory>
    ensures { OnOk result (IsPushed (new_cell stored autostart) slots.old.domains slots.new.domains slots.old.passes slots.new.passes) }
{
    let (domain, pass) = DomainObj::new_at(alloc, stored, autostart, 0)?;
    let pass = RestingPass::new(pass, PassState::Idle);
    slots.domains.push(domain)?;
    slots.passes.push(pass)?;
    Ok(())
}

// The same for a domain that was found.
fn push_found<G: Guests>(
    alloc: Global,
    slots: &mut Slots<G>,
    domain: &FoundDomain,
) -> Result<(), NoMemory>
    ensures { OnOk result (IsPushed (found_cell domain.now) slots.old.domains slots.new.domains slots.old.passes slots.new.passes) }
{
    let definition = domain.definition.copy()?;
    push(alloc, slots, Some(definition), domain.autostart)
}

/// The domains that were found, in slots 0, 1, .., and vacant ones in the others.
pub(crate) fn make_slots<G: Guests>(
    alloc: Global,
    found: &[FoundDomain],
) -> Result<Slots<G>, NoMemory>
    requires { length found.now ≤ most_domains }
    ensures { IfOk result (λ slots. AreFirst (cells_of found.now) slots.domains slots.passes) }
{
    let mut slots = Slots {
        domains: ListOf::new(alloc),
        passes: ListOf::new(alloc),
    };
    for domain in found {
        push_found(alloc, &mut slots, domain)?;
    }
    for _ in 0..MOST_DOMAINS - found.len() {
        push(alloc, &mut slots, None, false)?;
    }
    Ok(slots)
}
