// Writing what replies carry.
ghost use Rattle.std.specs.Prelude.{◌≡◌, ◌≤◌, ◌++◌, ◌<◌, ◌^◌, length, IfSome, OnOk};
ghost use Rattle.std.specs.Str.{IsUtf8};
ghost use Rattle.virt_types.specs.Limits.{most_state_bytes};
ghost use Rattle.virt_types.specs.Name.{IsName};
ghost use Rattle.virt_types.specs.Numbers.{job_number};
ghost use Rattle.wire_spec.specs.Xdr.{opaque, optional};
ghost use Rattle.procedure_spec.specs.declared.shape.ResultShape.{ResultShape};
ghost use Rattle.procedure_spec.specs.ResultItems.{IsInfo, IsJob, IsObjectReference, IsReference, domain_reference, info as info_items, job as job_items, migrated as migrated_items, object_reference};
ghost use Rattle.procedure_spec.specs.Results.{HasShape, result as spelled};
ghost use Rattle.remote_args.specs.Holding.{Holds};

use crate::result_list::{put_domains, put_leases, put_names, put_pools, put_titles};
use std::alloc::Global;
use virt_types::{DomainInfo, DomainRef, JobInfo, MigratedText, Name, NoMemory, Uuid, Value};
use xdr_codec::Writer;

pub(crate) fn put_name(writer: &mut Writer, name: &Name) -> Result<(), NoMemory>
    ensures written { OnOk result (writer.new ≡ writer.old ++ opaque name.now) }
    ensures name { OnOk result (IsName name.now) }
{
    writer.put_string(name.as_bytes())
}

fn put_optional_name(writer: &mut Writer, name: &Option<Name>) -> Result<(), NoMemory>
    ensures written { OnOk result (writer.new ≡ writer.old ++ optional opaque name.now) }
    ensures name { OnOk result (IfSome name.now IsName) }
{
    match name {
        Some(name) => {
            writer.put_optional(true)?;
            put_name(writer, name)
        }
        None => writer.put_optional(false),
    }
}

pub(crate) fn put_reference(writer: &mut Writer, domain: &DomainRef) -> Result<(), NoMemory>
    ensures written { OnOk result (writer.new ≡ writer.old ++ domain_reference domain.now) }
    ensures reference { OnOk result (IsReference domain.now) }
{
    put_name(writer, &domain.name)?;
    writer.put_fixed(domain.uuid.as_bytes())?;
    writer.put_i32(domain.id)
}

pub(crate) fn put_object(writer: &mut Writer, name: &Name, uuid: &Uuid) -> Result<(), NoMemory>
    ensures written { OnOk result (writer.new ≡ writer.old ++ object_reference name.now uuid.now) }
    ensures reference { OnOk result (IsObjectReference name.now uuid.now) }
{
    put_name(writer, name)?;
    writer.put_fixed(uuid.as_bytes())
}

// The processor time is always 0.
fn put_info(writer: &mut Writer, info: &DomainInfo) -> Result<(), NoMemory>
    ensures written { OnOk result (writer.new ≡ writer.old ++ info_items info.now) }
    ensures info { OnOk result (IsInfo info.now) }
{
    writer.put_u32(info.state.number())?;
    writer.put_u64(info.memory)?;
    writer.put_u64(info.current)?;
    writer.put_u32(info.vcpus)?;
    writer.put_u64(0)
}

// The number of an operation that may be absent.
fn kind_number(job: &JobInfo) -> u32
    ensures { result ≡ job_number job.now.kind }
{
    match job.kind {
        Some(kind) => kind.number(),
        None => 0,
    }
}

fn put_job(writer: &mut Writer, job: &JobInfo) -> Result<(), NoMemory>
    ensures written { OnOk result (writer.new ≡ writer.old ++ job_items job.now) }
    ensures job { OnOk result (IsJob job.now) }
{
    writer.put_u32(kind_number(job))?;
    writer.put_u32(job.phase.number())?;
    writer.put_u64(job.rest)
}

fn put_migrated(writer: &mut Writer, guest: &MigratedText) -> Result<(), NoMemory>
    requires definition { length guest.now.definition < 2 ^ 32 }
    requires state { length guest.now.state ≤ most_state_bytes }
    ensures written { OnOk result (writer.new ≡ writer.old ++ migrated_items guest.now) }
    ensures text { OnOk result (IsUtf8 guest.now.definition) }
{
    writer.put_string(guest.definition.as_str().as_bytes())?;
    writer.put_optional(guest.running)?;
    writer.put_opaque(guest.state.as_slice())
}

/// Writes what a reply with this value carries.
pub(crate) fn put_value(alloc: Global, writer: &mut Writer, value: &Value) -> Result<(), NoMemory>
    requires { (shape : ResultShape) × HasShape value.now shape }
    ensures written { OnOk result (writer.new ≡ writer.old ++ spelled value.now) }
    ensures holds { OnOk result (Holds value.now) }
{
    match value {
        Value::Nothing => Ok(()),
        Value::Domain(domain) => put_reference(writer, domain.as_ref()),
        Value::Network(network) => {
            let network = network.as_ref();
            put_object(writer, &network.name, &network.uuid)
        }
        Value::Pool(pool) => {
            let pool = pool.as_ref();
            put_object(writer, &pool.name, &pool.uuid)
        }
        Value::Text(text) => writer.put_string(text.as_str().as_bytes()),
        Value::Autostart(autostart) => writer.put_optional(*autostart),
        Value::Info(info) => put_info(writer, info.as_ref()),
        Value::Names(list) => put_names(writer, list.as_slice()),
        Value::Domains(list) => put_domains(writer, list.as_slice()),
        Value::Pools(list) => put_pools(writer, list.as_slice()),
        Value::Job(job) => put_job(writer, job),
        Value::Name(name) => put_name(writer, name),
        Value::Parent(name) => put_optional_name(writer, name.as_ref()),
        Value::Memory(memory) => writer.put_u64(*memory),
        Value::Leases(list) => put_leases(alloc, writer, list.as_slice()),
        Value::Titles(list) => put_titles(writer, list.as_slice()),
        Value::MigratedText(guest) => put_migrated(writer, guest.as_ref()),
        _ => unreachable!(),
    }
}
