// Why a call on a network is not done.
ghost use Rattle.std.specs.Prelude.{◌≡◌};
ghost use Rattle.uuid.specs.Text.{hyphenated_text, lower};
ghost use Rattle.book_spec.specs.declared.book.NetAnswer.TheVariants.{Refused};
ghost use Rattle.book_spec.specs.NetCalls.{book_full, is_active, is_inactive, network_exists, no_memory, no_network};
ghost use Rattle.net_core.specs.Answers.{IsMissing, Tells, plain_of};

use std::alloc::Global;
use virt_types::{Name, NoMemory, OrNoMemory, Refusal, RefusalCode, Text, Uuid};

/// Whether a call may be done, or why not.
pub(crate) type Tested = Result<(), OrNoMemory<Refusal>>;

// A refusal that keeps this text.
fn refused(alloc: Global, code: RefusalCode, kept: &str) -> Tested
    ensures { Tells result (Refused (record { code = code; kept = kept.now })) }
{
    match Text::copy_of(alloc, kept) {
        Ok(kept) => Err(OrNoMemory::Fault(Refusal { code, kept })),
        Err(NoMemory) => Err(OrNoMemory::NoMemory),
    }
}

fn refused_about(alloc: Global, code: RefusalCode, uuid: Uuid) -> Tested
    ensures { Tells result (Refused (record { code = code; kept = hyphenated_text lower uuid })) }
{
    let mut buffer = Uuid::encode_buffer();
    refused(alloc, code, uuid.hyphenated().encode_lower(&mut buffer))
}

/// There is no network of this identifier.
pub(crate) fn no_network(alloc: Global, uuid: Uuid) -> Tested
    ensures { Tells result (Refused (no_network uuid)) }
{
    refused_about(alloc, RefusalCode::NoNetwork, uuid)
}

/// The name is held with this other identifier.
pub(crate) fn name_exists(alloc: Global, uuid: Uuid) -> Tested
    ensures { Tells result (Refused (network_exists (hyphenated_text lower uuid))) }
{
    refused_about(alloc, RefusalCode::NetworkExists, uuid)
}

/// The identifier is held with this other name.
pub(crate) fn uuid_exists(alloc: Global, name: &Name) -> Tested
    ensures { Tells result (Refused (network_exists name.now)) }
{
    refused(alloc, RefusalCode::NetworkExists, name.as_str())
}

/// The network is active.
pub(crate) fn is_active(alloc: Global) -> Tested
    ensures { Tells result (Refused is_active) }
{
    refused(alloc, RefusalCode::OperationInvalid, "active")
}

/// The network is inactive.
pub(crate) fn is_inactive(alloc: Global) -> Tested
    ensures { Tells result (Refused is_inactive) }
{
    refused(alloc, RefusalCode::OperationInvalid, "inactive")
}

/// The book is full.
pub(crate) fn book_full(alloc: Global) -> Tested
    ensures { Tells result (Refused book_full) }
{
    refused(alloc, RefusalCode::ListFull, "64")
}

/// There is no network of this identifier to be read.
pub(crate) fn missing(alloc: Global, uuid: Uuid) -> OrNoMemory<Refusal>
    ensures { IsMissing uuid result }
{
    let mut buffer = Uuid::encode_buffer();
    match Text::copy_of(alloc, uuid.hyphenated().encode_lower(&mut buffer)) {
        Ok(kept) => OrNoMemory::Fault(Refusal {
            code: RefusalCode::NoNetwork,
            kept,
        }),
        Err(NoMemory) => OrNoMemory::NoMemory,
    }
}

/// What a caller is told: being out of memory is a refusal, too.
pub(crate) fn plain<T>(alloc: Global, given: Result<T, OrNoMemory<Refusal>>) -> Result<T, Refusal>
    ensures { result ≡ plain_of given }
{
    match given {
        Ok(value) => Ok(value),
        Err(OrNoMemory::Fault(refusal)) => Err(refusal),
        Err(OrNoMemory::NoMemory) => Err(no_memory(alloc)),
    }
}

/// There was no memory.
pub(crate) fn no_memory(alloc: Global) -> Refusal
    ensures { result ≡ no_memory }
{
    Refusal {
        code: RefusalCode::NoMemory,
        kept: Text::of(String::new(alloc)),
    }
}
