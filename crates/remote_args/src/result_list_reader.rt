// Reading the lists of replies: how many entries, and then each.
ghost use Rattle.procedure_spec.specs.ListsReading.{first_count, first_entries, first_listed};
ghost use Rattle.procedure_spec.specs.ResultItemsReading.{first_domain_row, first_lease_row, first_name, first_pool_row, first_title_row};
ghost use Rattle.wire_spec.specs.XdrReading.{first_string};
ghost use Rattle.procedure_spec.specs.Reading.{item};
ghost use Rattle.procedure_spec.specs.declared.words.TheConstants.{TITLE_BOUND};
ghost use Rattle.remote_args.specs.Steps.{Walks};

use crate::address::{address, mac};
use crate::item::{lifted, truth, uuid, word};
use crate::result_item::{name, reference, state};
use procedure_spec::{ArgFault, NAMES_BOUND, TITLE_BOUND};
use std::alloc::Global;
use virt_types::{DomainRow, LeaseRow, ListOf, Name, OrNoMemory, PoolRow, Text, TitleRow};
use wire_spec::XdrFault;
use xdr_codec::Reader;

#[tactic(auto, unfolding(procedure_spec::specs::ListsReading::first_count))]
fn count(reader: &mut Reader<'_>) -> Result<u32, OrNoMemory<ArgFault>>
    ensures { Walks first_count reader.old result reader.new }
{
    let at = reader.place();
    let count = word(reader)?;
    if count > NAMES_BOUND {
        return Err(OrNoMemory::Fault(ArgFault::Xdr(XdrFault::TooLong {
            at,
            length: count as u64,
        })));
    }
    Ok(count)
}

#[tactic(auto, unfolding(procedure_spec::specs::ResultItemsReading::first_domain_row))]
fn domain(alloc: Global, reader: &mut Reader<'_>) -> Result<DomainRow, OrNoMemory<ArgFault>>
    ensures { Walks first_domain_row reader.old result reader.new }
{
    let domain = reference(alloc, reader)?;
    let state = state(reader)?;
    Ok(DomainRow { domain, state })
}

#[tactic(auto, unfolding(procedure_spec::specs::ResultItemsReading::first_pool_row))]
fn pool(alloc: Global, reader: &mut Reader<'_>) -> Result<PoolRow, OrNoMemory<ArgFault>>
    ensures { Walks first_pool_row reader.old result reader.new }
{
    let name = name(alloc, reader)?;
    let uuid = uuid(alloc, reader)?;
    let active = truth(reader)?;
    Ok(PoolRow { name, uuid, active })
}

#[tactic(auto, unfolding(procedure_spec::specs::ResultItemsReading::first_lease_row))]
fn lease(alloc: Global, reader: &mut Reader<'_>) -> Result<LeaseRow, OrNoMemory<ArgFault>>
    ensures { Walks first_lease_row reader.old result reader.new }
{
    let mac = mac(alloc, reader)?;
    let address = address(alloc, reader)?;
    Ok(LeaseRow { mac, address })
}

fn title_text(alloc: Global, reader: &mut Reader<'_>) -> Result<Text, OrNoMemory<ArgFault>>
    ensures { Walks (item (first_string TITLE_BOUND)) reader.old result reader.new }
{
    lifted(reader.take_text(alloc, TITLE_BOUND))
}

#[tactic(auto, unfolding(procedure_spec::specs::ResultItemsReading::first_title_row))]
fn title(alloc: Global, reader: &mut Reader<'_>) -> Result<TitleRow, OrNoMemory<ArgFault>>
    ensures { Walks first_title_row reader.old result reader.new }
{
    let name = name(alloc, reader)?;
    let title = title_text(alloc, reader)?;
    Ok(TitleRow { name, title })
}

fn each_name(
    alloc: Global,
    reader: &mut Reader<'_>,
    count: u32,
) -> Result<ListOf<Name>, OrNoMemory<ArgFault>>
    ensures { Walks (first_entries first_name count) reader.old result reader.new }
{
    let mut list = ListOf::new(alloc);
    for _ in 0..count {
        list.push(name(alloc, reader)?)?;
    }
    Ok(list)
}

#[tactic(auto, unfolding(procedure_spec::specs::ListsReading::first_listed))]
pub(crate) fn names(
    alloc: Global,
    reader: &mut Reader<'_>,
) -> Result<ListOf<Name>, OrNoMemory<ArgFault>>
    ensures { Walks (first_listed first_name) reader.old result reader.new }
{
    let count = count(reader)?;
    each_name(alloc, reader, count)
}

fn each_domain(
    alloc: Global,
    reader: &mut Reader<'_>,
    count: u32,
) -> Result<ListOf<DomainRow>, OrNoMemory<ArgFault>>
    ensures { Walks (first_entries first_domain_row count) reader.old result reader.new }
{
    let mut list = ListOf::new(alloc);
    for _ in 0..count {
        list.push(domain(alloc, reader)?)?;
    }
    Ok(list)
}

#[tactic(auto, unfolding(procedure_spec::specs::ListsReading::first_listed))]
pub(crate) fn domains(
    alloc: Global,
    reader: &mut Reader<'_>,
) -> Result<ListOf<DomainRow>, OrNoMemory<ArgFault>>
    ensures { Walks (first_listed first_domain_row) reader.old result reader.new }
{
    let count = count(reader)?;
    each_domain(alloc, reader, count)
}

fn each_pool(
    alloc: Global,
    reader: &mut Reader<'_>,
    count: u32,
) -> Result<ListOf<PoolRow>, OrNoMemory<ArgFault>>
    ensures { Walks (first_entries first_pool_row count) reader.old result reader.new }
{
    let mut list = ListOf::new(alloc);
    for _ in 0..count {
        list.push(pool(alloc, reader)?)?;
    }
    Ok(list)
}

#[tactic(auto, unfolding(procedure_spec::specs::ListsReading::first_listed))]
pub(crate) fn pools(
    alloc: Global,
    reader: &mut Reader<'_>,
) -> Result<ListOf<PoolRow>, OrNoMemory<ArgFault>>
    ensures { Walks (first_listed first_pool_row) reader.old result reader.new }
{
    let count = count(reader)?;
    each_pool(alloc, reader, count)
}

fn each_lease(
    alloc: Global,
    reader: &mut Reader<'_>,
    count: u32,
) -> Result<ListOf<LeaseRow>, OrNoMemory<ArgFault>>
    ensures { Walks (first_entries first_lease_row count) reader.old result reader.new }
{
    let mut list = ListOf::new(alloc);
    for _ in 0..count {
        list.push(lease(alloc, reader)?)?;
    }
    Ok(list)
}

#[tactic(auto, unfolding(procedure_spec::specs::ListsReading::first_listed))]
pub(crate) fn leases(
    alloc: Global,
    reader: &mut Reader<'_>,
) -> Result<ListOf<LeaseRow>, OrNoMemory<ArgFault>>
    ensures { Walks (first_listed first_lease_row) reader.old result reader.new }
{
    let count = count(reader)?;
    each_lease(alloc, reader, count)
}

fn each_title(
    alloc: Global,
    reader: &mut Reader<'_>,
    count: u32,
) -> Result<ListOf<TitleRow>, OrNoMemory<ArgFault>>
    ensures { Walks (first_entries first_title_row count) reader.old result reader.new }
{
    let mut list = ListOf::new(alloc);
    for _ in 0..count {
        list.push(title(alloc, reader)?)?;
    }
    Ok(list)
}

#[tactic(auto, unfolding(procedure_spec::specs::ListsReading::first_listed))]
pub(crate) fn titles(
    alloc: Global,
    reader: &mut Reader<'_>,
) -> Result<ListOf<TitleRow>, OrNoMemory<ArgFault>>
    ensures { Walks (first_listed first_title_row) reader.old result reader.new }
{
    let count = count(reader)?;
    each_title(alloc, reader, count)
}
