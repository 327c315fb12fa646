// Changes of a keeper, each in the turn of no pass.
ghost use Rattle.std.specs.Prelude.{IfOk};
ghost use Rattle.def_keeper.specs.Calls.{CanBeMade, CanBePut};

use crate::names::name;
use def_keeper::{Keeper, StoreFault};
use files_disk::Files;
use std::alloc::Global;
use std::marker::Brand;
use store_spec::{BookKind, Change, Entry};
use virt_types::{Front, NoMemory, OrNoMemory, Text, Uuid};

/// The identifier of the definition with this number.
pub(crate) fn uuid(number: u8) -> Uuid {
    Uuid::from_bytes([number; 16])
}

fn entry(alloc: Global, called: &str) -> Result<Entry, NoMemory>
    ensures { IfOk result CanBePut }
{
    let name = name(alloc, called)?;
    let title = Text::copy_of(alloc, "")?;
    let text = Text::copy_of(alloc, "<a/>\n")?;
    Ok(Entry {
        name,
        autostart: false,
        title,
        text,
    })
}

/// What a change answered.
#[derive(Clone, Copy, Debug, PartialEq, Eq)]
pub(crate) enum Answer {
    Done,
    Device,
    Kept,
    NoMemory,
}

fn answered(answer: Result<Front, OrNoMemory<StoreFault>>) -> Answer {
    match answer {
        Ok(_) => Answer::Done,
        Err(OrNoMemory::Fault(StoreFault::Device)) => Answer::Device,
        Err(OrNoMemory::Fault(StoreFault::NameKept { .. })) => Answer::Kept,
        Err(OrNoMemory::NoMemory) => Answer::NoMemory,
    }
}

// Changes a definition, in the turn of no pass.
fn change<F: Files>(keeper: &mut Keeper<F, Brand>, change: Change) -> Answer
    requires { CanBeMade change }
{
    if keeper.chapter() >= 1 << 62 {
        drop(change);
        return Answer::NoMemory;
    }
    answered(keeper.change(change))
}

/// Gives the definition of a domain with this number this name.
pub(crate) fn define<F: Files>(
    alloc: Global,
    keeper: &mut Keeper<F, Brand>,
    number: u8,
    name: &str,
) -> Answer {
    match entry(alloc, name) {
        Ok(entry) => change(
            keeper,
            Change::Put {
                kind: BookKind::Domain,
                uuid: uuid(number),
                entry,
            },
        ),
        Err(NoMemory) => Answer::NoMemory,
    }
}
