// The configuration of a directory.
ghost use Rattle.std.specs.Prelude.{◌≡◌, ◌≤◌, IfOk, IsErrOf};
ghost use Rattle.outside_spec.specs.Faults.{Rose};
ghost use Rattle.types_base.specs.declared.memory.OrNoMemory.TheVariants as or;
ghost use Rattle.daemon_settings.specs.declared.settings.SettingsFault.TheVariants as fault;
ghost use Rattle.daemon_settings.specs.Lines.{IsCount};
ghost use Rattle.daemon_settings.specs.Settings.{HasLoaded, file_name};

use crate::reading::read_settings;
use crate::settings::{Settings, SettingsFault};
use files_disk::Files;
use std::alloc::Global;
use types_base::{Fault, NoMemory, OrNoMemory, Text};

fn file_name(alloc: Global) -> Result<Text, NoMemory>
    ensures { IfOk result (λ name. name ≡ file_name) }
{
    Text::copy_of(alloc, "virtd.conf")
}

/// What the configuration in a directory says; without its file, what an empty one says.
pub fn load_settings<F: Files>(
    alloc: Global,
    files: &mut F,
) -> Result<Settings, OrNoMemory<SettingsFault>>
    ensures loaded { HasLoaded (F.told files.old) result }
    ensures count { IfOk result (λ settings. IsCount settings.max_sessions) }
    ensures told { F.told files.new ≡ F.told files.old }
    ensures cause { IsErrOf result (or.Fault fault.Device) → Rose (F.faults files.old) (F.faults files.new) }
    ensures faults { F.faults files.old ≤ F.faults files.new }
{
    let name = match file_name(alloc) {
        Ok(name) => name,
        Err(NoMemory) => return Err(OrNoMemory::NoMemory),
    };
    let read = match files.read(&name) {
        Ok(Some(bytes)) => read_settings(bytes.as_slice()),
        Ok(None) => read_settings(&[]),
        Err(Fault::Failed) => return Err(OrNoMemory::Fault(SettingsFault::Device)),
        Err(Fault::NoMemory) => return Err(OrNoMemory::NoMemory),
    };
    match read {
        Ok(settings) => Ok(settings),
        Err(bad) => Err(OrNoMemory::Fault(SettingsFault::Line(bad))),
    }
}
