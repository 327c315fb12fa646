// Why the list has no slot, as the caller is told it.
ghost use Rattle.std.specs.Prelude.{◌≡◌, IfOk, bytes_eq, if◌then◌else◌};
ghost use Rattle.uuid.specs.Text.{hyphenated_text, lower};
ghost use Rattle.outcome_spec.specs.Listed.{asked_for, claimed_name, list_refusal};
ghost use Rattle.outcome_spec.specs.Below.session_spec.Refused.{refusal};
ghost use Rattle.slot_holds.specs.Holds.{call_of};
ghost use Rattle.virt_types.specs.Below.types_base.declared.refusal.RefusalCode.TheVariants as code;
ghost use Rattle.list_replies.specs.Telling.{TellsFault};

use book_spec::ListFault;
use refusals::{no_memory, refuse_bytes, refuse_number, refuse_uuid};
use slot_holds::Hold;
use std::alloc::Global;
use virt_types::{Name, NoMemory, OrNoMemory, Refusal, RefusalCode, Reply, Uuid};

// There is no such domain.
fn absent(alloc: Global, hold: &Hold) -> Result<Refusal, NoMemory>
    ensures { IfOk result (λ why. why ≡ refusal code.NoDomain (asked_for (call_of hold.now))) }
{
    match hold {
        Hold::Name(name) => refuse_bytes(alloc, RefusalCode::NoDomain, name.as_slice()),
        Hold::Uuid(uuid) => refuse_uuid(alloc, RefusalCode::NoDomain, *uuid),
        Hold::Claim { name, uuid: _ } => refuse_bytes(
            alloc,
            RefusalCode::NoDomain,
            name.as_bytes(),
        ),
    }
}

// The name that was claimed.
fn claimed_name(hold: &Hold) -> &[u8]
    ensures { result.now ≡ claimed_name (call_of hold.now) }
{
    match hold {
        Hold::Claim { name, uuid: _ } => name.as_bytes(),
        _ => b"".as_slice(),
    }
}

// The name is held with this other identifier, or the identifier with this other name.
fn exists(alloc: Global, hold: &Hold, name: &Name, uuid: Uuid) -> Result<Refusal, NoMemory>
    ensures { IfOk result (λ why. why ≡ refusal code.DomainExists (if bytes_eq name.now (claimed_name (call_of hold.now)) then hyphenated_text lower uuid else name.now)) }
{
    if name.as_bytes() == claimed_name(hold) {
        refuse_uuid(alloc, RefusalCode::DomainExists, uuid)
    } else {
        refuse_bytes(alloc, RefusalCode::DomainExists, name.as_bytes())
    }
}

// The refusal of a fault.
fn refuse(alloc: Global, hold: &Hold, fault: ListFault) -> Result<Refusal, NoMemory>
    ensures { IfOk result (λ why. why ≡ list_refusal (call_of hold.now) fault) }
{
    match fault {
        ListFault::Absent => absent(alloc, hold),
        ListFault::Exists { name, uuid } => exists(alloc, hold, &name, uuid),
        ListFault::Full { count } => {
            refuse_number(alloc, RefusalCode::ListFull, u64::from(count))
        }
    }
}

/// The reply to a request for which the list gave no slot.
pub fn reply_to(alloc: Global, hold: &Hold, why: OrNoMemory<ListFault>) -> Reply
    ensures { TellsFault (call_of hold.now) why result }
{
    match why {
        OrNoMemory::Fault(fault) => match refuse(alloc, hold, fault) {
            Ok(refusal) => Reply::No(refusal),
            Err(NoMemory) => no_memory(alloc),
        },
        OrNoMemory::NoMemory => no_memory(alloc),
    }
}
