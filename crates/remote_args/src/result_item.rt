// Reading the parts of what replies carry.
ghost use Rattle.std.specs.Prelude.{◌≡◌, ℕ, List};
ghost use Rattle.virt_types.specs.Numbers.{job_number};
ghost use Rattle.procedure_spec.specs.Numbered.{job_numbered, kind_numbered, phase_numbered, state_numbered};
ghost use Rattle.procedure_spec.specs.ResultItemsReading.{first_info, first_job, first_kind, first_migrated, first_name, first_object, first_optional_name, first_phase, first_reference, first_state, first_time};
ghost use Rattle.remote_args.specs.Steps.{Walks};

use crate::item::{double_word, integer, state_bytes, text, truth, uuid, word};
use procedure_spec::ArgFault;
use std::alloc::Global;
use virt_types::{
    DomainInfo, DomainRef, DomainState, JobInfo, MigratedText, Name, NetworkRef, OpKind,
    OrNoMemory, Phase, PoolRef,
};
use xdr_codec::Reader;

#[tactic(auto, unfolding(procedure_spec::specs::ResultItemsReading::first_name))]
pub(crate) fn name(alloc: Global, reader: &mut Reader<'_>) -> Result<Name, OrNoMemory<ArgFault>>
    ensures { Walks first_name reader.old result reader.new }
{
    let place = reader.place();
    let text = text(alloc, reader)?;
    match Name::read(alloc, text.as_bytes()) {
        Ok(name) => Ok(name),
        Err(OrNoMemory::Fault(bad)) => Err(OrNoMemory::Fault(ArgFault::Name {
            at: place + 4 + bad.at,
        })),
        Err(OrNoMemory::NoMemory) => Err(OrNoMemory::NoMemory),
    }
}

#[tactic(auto, unfolding(procedure_spec::specs::ResultItemsReading::first_reference))]
pub(crate) fn reference(
    alloc: Global,
    reader: &mut Reader<'_>,
) -> Result<DomainRef, OrNoMemory<ArgFault>>
    ensures { Walks first_reference reader.old result reader.new }
{
    let name = name(alloc, reader)?;
    let uuid = uuid(alloc, reader)?;
    let id = integer(reader)?;
    Ok(DomainRef { name, uuid, id })
}

#[tactic(auto, unfolding(procedure_spec::specs::ResultItemsReading::first_optional_name))]
pub(crate) fn optional_name(
    alloc: Global,
    reader: &mut Reader<'_>,
) -> Result<Option<Name>, OrNoMemory<ArgFault>>
    ensures { Walks first_optional_name reader.old result reader.new }
{
    if truth(reader)? {
        Ok(Some(name(alloc, reader)?))
    } else {
        Ok(None)
    }
}

#[tactic(auto, unfolding(procedure_spec::specs::ResultItemsReading::first_object))]
pub(crate) fn network(
    alloc: Global,
    reader: &mut Reader<'_>,
) -> Result<NetworkRef, OrNoMemory<ArgFault>>
    ensures { Walks (first_object (λ (n : List ℕ) (u : List ℕ). record { name = n; uuid = u })) reader.old result reader.new }
{
    let name = name(alloc, reader)?;
    let uuid = uuid(alloc, reader)?;
    Ok(NetworkRef { name, uuid })
}

#[tactic(auto, unfolding(procedure_spec::specs::ResultItemsReading::first_object))]
pub(crate) fn pool(alloc: Global, reader: &mut Reader<'_>) -> Result<PoolRef, OrNoMemory<ArgFault>>
    ensures { Walks (first_object (λ (n : List ℕ) (u : List ℕ). record { name = n; uuid = u })) reader.old result reader.new }
{
    let name = name(alloc, reader)?;
    let uuid = uuid(alloc, reader)?;
    Ok(PoolRef { name, uuid })
}

// What numbers stand for.

fn state_of(number: u32) -> Option<DomainState>
    ensures { result ≡ state_numbered number }
{
    DomainState::of_number(number)
}

fn kind_of(number: u32) -> Option<OpKind>
    ensures { result ≡ kind_numbered number }
{
    OpKind::of_number(number)
}

fn phase_of(number: u32) -> Option<Phase>
    ensures { result ≡ phase_numbered number }
{
    Phase::of_number(number)
}

// An operation that may be absent.
fn job_of(number: u32) -> Option<Option<OpKind>>
    ensures { result ≡ job_numbered number }
{
    if number == 0 {
        return Some(None);
    }
    match kind_of(number) {
        Some(kind) => Some(Some(kind)),
        None => None,
    }
}

#[tactic(auto, unfolding(procedure_spec::specs::ResultItemsReading::first_state))]
pub(crate) fn state(reader: &mut Reader<'_>) -> Result<DomainState, OrNoMemory<ArgFault>>
    ensures { Walks first_state reader.old result reader.new }
{
    let at = reader.place();
    match state_of(word(reader)?) {
        Some(state) => Ok(state),
        None => Err(OrNoMemory::Fault(ArgFault::Foreign { at })),
    }
}

#[tactic(auto, unfolding(procedure_spec::specs::ResultItemsReading::first_kind))]
fn kind(reader: &mut Reader<'_>) -> Result<Option<OpKind>, OrNoMemory<ArgFault>>
    ensures { Walks first_kind reader.old result reader.new }
{
    let at = reader.place();
    match job_of(word(reader)?) {
        Some(kind) => Ok(kind),
        None => Err(OrNoMemory::Fault(ArgFault::Foreign { at })),
    }
}

#[tactic(auto, unfolding(procedure_spec::specs::ResultItemsReading::first_phase))]
fn phase(reader: &mut Reader<'_>) -> Result<Phase, OrNoMemory<ArgFault>>
    ensures { Walks first_phase reader.old result reader.new }
{
    let at = reader.place();
    match phase_of(word(reader)?) {
        Some(phase) => Ok(phase),
        None => Err(OrNoMemory::Fault(ArgFault::Foreign { at })),
    }
}

// The processor time, which is always 0.
#[tactic(auto, unfolding(procedure_spec::specs::ResultItemsReading::first_time))]
fn pass_time(reader: &mut Reader<'_>) -> Result<(), OrNoMemory<ArgFault>>
    ensures { Walks first_time reader.old result reader.new }
{
    let at = reader.place();
    if double_word(reader)? != 0 {
        return Err(OrNoMemory::Fault(ArgFault::Foreign { at }));
    }
    Ok(())
}

#[tactic(auto, unfolding(procedure_spec::specs::ResultItemsReading::first_info))]
pub(crate) fn info(reader: &mut Reader<'_>) -> Result<DomainInfo, OrNoMemory<ArgFault>>
    ensures { Walks first_info reader.old result reader.new }
{
    let state = state(reader)?;
    let memory = double_word(reader)?;
    let current = double_word(reader)?;
    let vcpus = word(reader)?;
    pass_time(reader)?;
    Ok(DomainInfo {
        state,
        memory,
        current,
        vcpus,
    })
}

#[tactic(auto, unfolding(procedure_spec::specs::ResultItemsReading::first_job))]
pub(crate) fn job(reader: &mut Reader<'_>) -> Result<JobInfo, OrNoMemory<ArgFault>>
    ensures { Walks first_job reader.old result reader.new }
{
    let kind = kind(reader)?;
    let phase = phase(reader)?;
    let rest = double_word(reader)?;
    Ok(JobInfo { kind, phase, rest })
}

#[tactic(auto, unfolding(procedure_spec::specs::ResultItemsReading::first_migrated))]
pub(crate) fn migrated(
    alloc: Global,
    reader: &mut Reader<'_>,
) -> Result<MigratedText, OrNoMemory<ArgFault>>
    ensures { Walks first_migrated reader.old result reader.new }
{
    let definition = text(alloc, reader)?;
    let running = truth(reader)?;
    let state = state_bytes(alloc, reader)?;
    Ok(MigratedText {
        definition,
        running,
        state,
    })
}
