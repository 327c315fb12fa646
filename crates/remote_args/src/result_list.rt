// Writing the lists of replies: how many entries, and then each.
ghost use Rattle.std.specs.Prelude.{◌≡◌, ◌≤◌, ◌++◌, length, OnOk};
ghost use Rattle.std.specs.List.{AllByRecursion, flat_map};
ghost use Rattle.virt_types.specs.Name.{IsName};
ghost use Rattle.wire_spec.specs.Xdr.{opaque};
ghost use Rattle.procedure_spec.specs.ResultItems.{IsDomainRow, IsLeaseRow, IsPoolRow, IsTitleRow, domain_row, lease_row, listed, pool_row, title_row};
ghost use Rattle.procedure_spec.specs.declared.words.TheConstants.{NAMES_BOUND, TITLE_BOUND};
ghost use Rattle.remote_args.specs.Holding.{AreShort};

use crate::address::{put_address, put_mac};
use crate::result::{put_name, put_object, put_reference};
use std::alloc::Global;
use virt_types::{DomainRow, LeaseRow, Name, NoMemory, PoolRow, TitleRow};
use xdr_codec::Writer;

fn put_domain(writer: &mut Writer, row: &DomainRow) -> Result<(), NoMemory>
    ensures written { OnOk result (writer.new ≡ writer.old ++ domain_row row.now) }
    ensures row { OnOk result (IsDomainRow row.now) }
{
    put_reference(writer, &row.domain)?;
    writer.put_u32(row.state.number())
}

fn put_pool(writer: &mut Writer, row: &PoolRow) -> Result<(), NoMemory>
    ensures written { OnOk result (writer.new ≡ writer.old ++ pool_row row.now) }
    ensures row { OnOk result (IsPoolRow row.now) }
{
    put_object(writer, &row.name, &row.uuid)?;
    writer.put_optional(row.active)
}

fn put_lease(alloc: Global, writer: &mut Writer, row: &LeaseRow) -> Result<(), NoMemory>
    ensures written { OnOk result (writer.new ≡ writer.old ++ lease_row row.now) }
    ensures row { OnOk result (IsLeaseRow row.now) }
{
    put_mac(alloc, writer, row.mac)?;
    put_address(alloc, writer, row.address)
}

fn put_title(writer: &mut Writer, row: &TitleRow) -> Result<(), NoMemory>
    requires { length row.now.title ≤ TITLE_BOUND }
    ensures written { OnOk result (writer.new ≡ writer.old ++ title_row row.now) }
    ensures row { OnOk result (IsTitleRow row.now) }
{
    put_name(writer, &row.name)?;
    writer.put_string(row.title.as_str().as_bytes())
}

fn put_each_name(writer: &mut Writer, list: &[Name]) -> Result<(), NoMemory>
    ensures written { OnOk result (writer.new ≡ writer.old ++ flat_map opaque list.now) }
    ensures entries { OnOk result (AllByRecursion IsName list.now) }
{
    for entry in list {
        put_name(writer, entry)?;
    }
    Ok(())
}

pub(crate) fn put_names(writer: &mut Writer, list: &[Name]) -> Result<(), NoMemory>
    requires { length list.now ≤ NAMES_BOUND }
    ensures written { OnOk result (writer.new ≡ writer.old ++ listed opaque list.now) }
    ensures entries { OnOk result (AllByRecursion IsName list.now) }
{
    writer.put_u32(list.len() as u32)?;
    put_each_name(writer, list)
}

fn put_each_domain(writer: &mut Writer, list: &[DomainRow]) -> Result<(), NoMemory>
    ensures written { OnOk result (writer.new ≡ writer.old ++ flat_map domain_row list.now) }
    ensures entries { OnOk result (AllByRecursion IsDomainRow list.now) }
{
    for entry in list {
        put_domain(writer, entry)?;
    }
    Ok(())
}

pub(crate) fn put_domains(writer: &mut Writer, list: &[DomainRow]) -> Result<(), NoMemory>
    requires { length list.now ≤ NAMES_BOUND }
    ensures written { OnOk result (writer.new ≡ writer.old ++ listed domain_row list.now) }
    ensures entries { OnOk result (AllByRecursion IsDomainRow list.now) }
{
    writer.put_u32(list.len() as u32)?;
    put_each_domain(writer, list)
}

fn put_each_pool(writer: &mut Writer, list: &[PoolRow]) -> Result<(), NoMemory>
    ensures written { OnOk result (writer.new ≡ writer.old ++ flat_map pool_row list.now) }
    ensures entries { OnOk result (AllByRecursion IsPoolRow list.now) }
{
    for entry in list {
        put_pool(writer, entry)?;
    }
    Ok(())
}

pub(crate) fn put_pools(writer: &mut Writer, list: &[PoolRow]) -> Result<(), NoMemory>
    requires { length list.now ≤ NAMES_BOUND }
    ensures written { OnOk result (writer.new ≡ writer.old ++ listed pool_row list.now) }
    ensures entries { OnOk result (AllByRecursion IsPoolRow list.now) }
{
    writer.put_u32(list.len() as u32)?;
    put_each_pool(writer, list)
}

fn put_each_lease(alloc: Global, writer: &mut Writer, list: &[LeaseRow]) -> Result<(), NoMemory>
    ensures written { OnOk result (writer.new ≡ writer.old ++ flat_map lease_row list.now) }
    ensures entries { OnOk result (AllByRecursion IsLeaseRow list.now) }
{
    for entry in list {
        put_lease(alloc, writer, entry)?;
    }
    Ok(())
}

pub(crate) fn put_leases(
    alloc: Global,
    writer: &mut Writer,
    list: &[LeaseRow],
) -> Result<(), NoMemory>
    requires { length list.now ≤ NAMES_BOUND }
    ensures written { OnOk result (writer.new ≡ writer.old ++ listed lease_row list.now) }
    ensures entries { OnOk result (AllByRecursion IsLeaseRow list.now) }
{
    writer.put_u32(list.len() as u32)?;
    put_each_lease(alloc, writer, list)
}

fn put_each_title(writer: &mut Writer, list: &[TitleRow]) -> Result<(), NoMemory>
    requires { AreShort list.now }
    ensures written { OnOk result (writer.new ≡ writer.old ++ flat_map title_row list.now) }
    ensures entries { OnOk result (AllByRecursion IsTitleRow list.now) }
{
    for entry in list {
        put_title(writer, entry)?;
    }
    Ok(())
}

pub(crate) fn put_titles(writer: &mut Writer, list: &[TitleRow]) -> Result<(), NoMemory>
    requires count { length list.now ≤ NAMES_BOUND }
    requires short { AreShort list.now }
    ensures written { OnOk result (writer.new ≡ writer.old ++ listed title_row list.now) }
    ensures entries { OnOk result (AllByRecursion IsTitleRow list.now) }
{
    writer.put_u32(list.len() as u32)?;
    put_each_title(writer, list)
}
