// Why a driver isn't opened.
ghost use Rattle.std.specs.Prelude.{◌≡◌};
ghost use Rattle.driver_store.specs.Faults.{of_bad, of_found, of_open, of_opening};

use def_keeper::OpenFault;
use found_domains::FoundFault;
use store_spec::BookKind;
use thiserror::Error;
use virt_types::{OrNoMemory, Text, Uuid};

/// Why a driver is not opened: what is wrong with the directory of its definitions.
#[derive(Debug, Drop, Error)]
pub enum DriverFault {
    /// The store failed.
    #[error("the store failed")]
    Device,
    /// A file whose name ends in `.def` is no definition.
    #[error("a file is no definition")]
    NotADefinition {
        /// The file's name.
        file: Text,
    },
    /// Two objects of a kind have one name.
    #[error("two definitions have one name")]
    TwoOfOneName {
        /// The kind of object.
        kind: BookKind,
        /// The object that has the name.
        one: Uuid,
        /// The other.
        two: Uuid,
    },
    /// The text of a definition has no reading, or is not that of the object that its file is of.
    #[error("a definition has a bad text")]
    BadText {
        /// The file's name.
        file: Text,
    },
    /// There are more definitions of a kind than are served: this is the first file past them.
    #[error("there are too many definitions of a kind")]
    TooMany {
        /// The file's name.
        file: Text,
    },
}

// The fault of an opening of the store, as one of the driver's.
fn of_open(fault: OpenFault) -> DriverFault
    ensures { result ≡ of_open fault }
{
    match fault {
        OpenFault::Device => DriverFault::Device,
        OpenFault::NotADefinition { file } => DriverFault::NotADefinition { file },
        OpenFault::TwoOfOneName { kind, one, two } => DriverFault::TwoOfOneName { kind, one, two },
    }
}

/// The same, where there may have been no memory.
pub(crate) fn of_opening(fault: OrNoMemory<OpenFault>) -> OrNoMemory<DriverFault>
    ensures { result ≡ of_opening fault }
{
    match fault {
        OrNoMemory::Fault(fault) => OrNoMemory::Fault(of_open(fault)),
        OrNoMemory::NoMemory => OrNoMemory::NoMemory,
    }
}

// The fault of what a store holds, as one of the driver's.
fn of_bad(fault: FoundFault) -> DriverFault
    ensures { result ≡ of_bad fault }
{
    match fault {
        FoundFault::BadText { file } => DriverFault::BadText { file },
        FoundFault::TooMany { file } => DriverFault::TooMany { file },
    }
}

/// The same, where there may have been no memory.
pub(crate) fn of_found(fault: OrNoMemory<FoundFault>) -> OrNoMemory<DriverFault>
    ensures { result ≡ of_found fault }
{
    match fault {
        OrNoMemory::Fault(fault) => OrNoMemory::Fault(of_bad(fault)),
        OrNoMemory::NoMemory => OrNoMemory::NoMemory,
    }
}
