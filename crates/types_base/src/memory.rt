// What a call answers besides its result: a fault of its input, that memory ran out, or a fault of the outside.
use std::alloc::{AllocError, AllocFailed};
use std::error::Error;
use std::fmt;

/// There was no memory for what was to be made. Whoever asks again later may get it.
#[derive(Clone, Copy, Debug, PartialEq, Eq)]
pub struct NoMemory;

impl fmt::Display for NoMemory {
    fn fmt<W: fmt::Write>(&self, f: &mut fmt::Formatter<W>) -> fmt::Result {
        f.write_str("out of memory")
    }
}

impl Error for NoMemory {}

impl From<AllocError> for NoMemory {
    fn from(_error: AllocError) -> NoMemory {
        NoMemory
    }
}

impl<T: Drop> From<AllocFailed<T>> for NoMemory {
    fn from(_error: AllocFailed<T>) -> NoMemory {
        NoMemory
    }
}

/// The outside failed: a stream, a file, a link to a guest. It says no more, and its count of
/// faults has risen.
#[derive(Clone, Copy, Debug, PartialEq, Eq)]
pub struct Failed;

impl fmt::Display for Failed {
    fn fmt<W: fmt::Write>(&self, f: &mut fmt::Formatter<W>) -> fmt::Result {
        f.write_str("the outside failed")
    }
}

impl Error for Failed {}

/// Why a call on the outside that takes memory gave nothing.
#[derive(Clone, Copy, Debug, PartialEq, Eq)]
pub enum Fault {
    /// The outside failed.
    Failed,
    /// There was no memory.
    NoMemory,
}

impl fmt::Display for Fault {
    fn fmt<W: fmt::Write>(&self, f: &mut fmt::Formatter<W>) -> fmt::Result {
        match self {
            Fault::Failed => Failed.fmt(f),
            Fault::NoMemory => NoMemory.fmt(f),
        }
    }
}

impl Error for Fault {}

impl From<Failed> for Fault {
    ghost use Rattle.std.specs.Prelude.{◌≡◌};
    ghost use Rattle.types_base.specs.declared.memory.Fault.TheVariants as fault;

    ghost from_gives = { λ _ e. e ≡ fault.Failed };

    fn from(_error: Failed) -> Fault {
        Fault::Failed
    }
}

impl From<NoMemory> for Fault {
    ghost use Rattle.std.specs.Prelude.{◌≡◌};
    ghost use Rattle.types_base.specs.declared.memory.Fault.TheVariants as fault;

    ghost from_gives = { λ _ e. e ≡ fault.NoMemory };

    fn from(_error: NoMemory) -> Fault {
        Fault::NoMemory
    }
}

impl From<AllocError> for Fault {
    ghost use Rattle.std.specs.Prelude.{◌≡◌};
    ghost use Rattle.types_base.specs.declared.memory.Fault.TheVariants as fault;

    ghost from_gives = { λ _ e. e ≡ fault.NoMemory };

    fn from(_error: AllocError) -> Fault {
        Fault::NoMemory
    }
}

impl<T: Drop> From<AllocFailed<T>> for Fault {
    ghost use Rattle.std.specs.Prelude.{◌≡◌};
    ghost use Rattle.types_base.specs.declared.memory.Fault.TheVariants as fault;

    ghost from_gives = { λ _ e. e ≡ fault.NoMemory };

    fn from(_error: AllocFailed<T>) -> Fault {
        Fault::NoMemory
    }
}

/// Why a call that takes memory gave nothing: a fault that its input shows, or it ran out of memory.
#[derive(Clone, Copy, Debug, PartialEq, Eq)]
pub enum OrNoMemory<F> {
    /// What the input shows.
    Fault(F),
    /// There was no memory.
    NoMemory,
}

impl<F: fmt::Display> fmt::Display for OrNoMemory<F> {
    fn fmt<W: fmt::Write>(&self, f: &mut fmt::Formatter<W>) -> fmt::Result {
        match self {
            OrNoMemory::Fault(fault) => fault.fmt(f),
            OrNoMemory::NoMemory => NoMemory.fmt(f),
        }
    }
}

impl<F: Error> Error for OrNoMemory<F> {}

impl<F: Drop> From<NoMemory> for OrNoMemory<F> {
    ghost use Rattle.std.specs.Prelude.{◌≡◌};
    ghost use Rattle.types_base.specs.declared.memory.OrNoMemory.TheVariants as or;

    ghost from_gives = { λ _ e. e ≡ or.NoMemory };

    fn from(_error: NoMemory) -> OrNoMemory<F> {
        OrNoMemory::NoMemory
    }
}

impl<F: Drop> From<AllocError> for OrNoMemory<F> {
    ghost use Rattle.std.specs.Prelude.{◌≡◌};
    ghost use Rattle.types_base.specs.declared.memory.OrNoMemory.TheVariants as or;

    ghost from_gives = { λ _ e. e ≡ or.NoMemory };

    fn from(_error: AllocError) -> OrNoMemory<F> {
        OrNoMemory::NoMemory
    }
}

impl<T: Drop, F: Drop> From<AllocFailed<T>> for OrNoMemory<F> {
    ghost use Rattle.std.specs.Prelude.{◌≡◌};
    ghost use Rattle.types_base.specs.declared.memory.OrNoMemory.TheVariants as or;

    ghost from_gives = { λ _ e. e ≡ or.NoMemory };

    fn from(_error: AllocFailed<T>) -> OrNoMemory<F> {
        OrNoMemory::NoMemory
    }
}
