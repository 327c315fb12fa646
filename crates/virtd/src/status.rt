// The statuses of the program.
ghost use Rattle.std.specs.Prelude.{◌≡◌, ◌≢◌};
ghost use Rattle.virtd.specs.Status.{fault_status, settings_status, status};

use daemon::{DriverFault, End};
use daemon_settings::SettingsFault;
use virt_types::OrNoMemory;

/// The status where the words are those of no command.
pub(crate) const USAGE: u8 = 2;

/// The status where a line of the configuration is in no form.
pub(crate) const CONFIGURATION: u8 = 3;

/// The status where the files of the store failed.
pub(crate) const STORE: u8 = 4;

/// The status where standard input or output failed, or the system gave no seed.
pub(crate) const LINK: u8 = 5;

/// The status where a file of the store is no definition, or one that can't be served.
pub(crate) const DAMAGED: u8 = 6;

/// The status where memory ran out.
pub(crate) const OUT_OF_MEMORY: u8 = 12;

/// The status that says how a session ended.
pub(crate) fn status_of(end: &End) -> u8
    ensures status { result ≡ status end.now }
    ensures no_usage { result ≢ 2 }
{
    match end {
        End::Closed | End::Eof => 0,
        End::SourceFault | End::SinkFault => LINK,
        End::BadPacket(_) => 7,
        End::Truncated { .. } => 8,
        End::NoMemory => OUT_OF_MEMORY,
    }
}

/// The status that says why a daemon is not opened.
pub(crate) fn status_of_fault(fault: &OrNoMemory<DriverFault>) -> u8
    ensures status { result ≡ fault_status fault.now }
    ensures no_usage { result ≢ 2 }
{
    match fault {
        OrNoMemory::Fault(DriverFault::Device) => STORE,
        OrNoMemory::Fault(_) => DAMAGED,
        OrNoMemory::NoMemory => OUT_OF_MEMORY,
    }
}

/// The status that says why the configuration of a directory isn't known.
pub(crate) fn status_of_settings(fault: &OrNoMemory<SettingsFault>) -> u8
    ensures status { result ≡ settings_status fault.now }
    ensures no_usage { result ≢ 2 }
{
    match fault {
        OrNoMemory::Fault(SettingsFault::Device) => STORE,
        OrNoMemory::Fault(SettingsFault::Line(_)) => CONFIGURATION,
        OrNoMemory::NoMemory => OUT_OF_MEMORY,
    }
}
