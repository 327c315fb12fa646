// What the threads of stories ask of their domain.
ghost use Rattle.std.specs.Prelude.{◌≡◌, IfOk, None};
ghost use Rattle.domain_spec.specs.Call.{takes_up};

use crate::definition::{disk, name};
use std::alloc::Global;
use virt_types::{Boxed, Call, NoMemory};

/// What a thread asks.
#[derive(Clone, Copy)]
pub(crate) enum Asked {
    /// That the domain runs.
    Start,
    /// That it stands still.
    Suspend,
    /// That it ends.
    Destroy,
    /// That what goes on is given up.
    Abort,
    /// That it gets the disk `vda`.
    Attach,
    /// That it is saved in the image `s`.
    Save,
    /// That it is dumped into the image `d`.
    Dump,
}

/// The call.
pub(crate) fn call_of(alloc: Global, asked: Asked) -> Result<Call, NoMemory>
    ensures takes { IfOk result (λ call. takes_up call ≡ None) }
{
    match asked {
        Asked::Start => Ok(Call::Start),
        Asked::Suspend => Ok(Call::Suspend),
        Asked::Destroy => Ok(Call::Destroy),
        Asked::Abort => Ok(Call::Abort),
        Asked::Attach => Ok(Call::Attach(Boxed::new(alloc, disk(alloc)?)?)),
        Asked::Save => Ok(Call::Save(name(alloc, "s")?)),
        Asked::Dump => Ok(Call::Dump(name(alloc, "d")?)),
    }
}

impl Asked {
    /// Its word.
    pub(crate) fn word(self) -> &'static str {
        match self {
            Asked::Start => "start",
            Asked::Suspend => "suspend",
            Asked::Destroy => "destroy",
            Asked::Abort => "abort",
            Asked::Attach => "attach",
            Asked::Save => "save",
            Asked::Dump => "dump",
        }
    }
}
