// What a call asks of others before it is done: of the guest's monitor, or of the desk.
ghost use Rattle.std.specs.Prelude.{◌≡◌, ◌≢◌, IfNone, IfSome};
ghost use Rattle.virt_types.specs.declared.ask.ImageKind.{ImageKind as TheImageKind};
ghost use Rattle.virt_types.specs.Numbers.{image_number};

use types_base::{Boxed, Bytes, DeviceDef, DomainDef, Mac, Name, NoMemory, Text, TryCopy, both};
use uuid::Uuid;

/// A command to a guest's monitor (after QEMU's QMP).
pub enum Command {
    /// Whether the guest runs.
    QueryStatus,
    /// How much memory the guest has, in KiB.
    QueryMemory,
    /// Go on.
    Cont,
    /// Stand still.
    Stop,
    /// Shut down by your own means.
    Powerdown,
    /// Begin again from the start.
    Reset,
    /// End at once.
    Quit,
    /// Have this much memory, in KiB.
    SetMemory(u64),
    /// Have this many processors.
    SetVcpus(u32),
    /// Get the host's side of a device.
    AddBackend {
        /// The device's slot.
        slot: u32,
        /// The device.
        device: Boxed<DeviceDef>,
    },
    /// Get the guest's side of a device.
    AddDevice {
        /// The device's slot.
        slot: u32,
        /// The device.
        device: Boxed<DeviceDef>,
    },
    /// Lose the guest's side of the device at this slot.
    RemoveDevice(u32),
    /// Lose the host's side of the device at this slot.
    RemoveBackend(u32),
    /// Begin to copy your state.
    CopyBegin,
    /// How much of the copy is left.
    CopyPoll,
    /// Hand over the copy.
    CopyTake,
    /// Give the copy up.
    CopyCancel,
    /// Take this state.
    LoadState(Bytes),
    /// Do something of your own, 1 to 5.
    Kick(u32),
}

impl Drop for Command {
    fn drop(self) {
        match self {
            Command::QueryStatus => {}
            Command::QueryMemory => {}
            Command::Cont => {}
            Command::Stop => {}
            Command::Powerdown => {}
            Command::Reset => {}
            Command::Quit => {}
            Command::SetMemory(_) => {}
            Command::SetVcpus(_) => {}
            Command::AddBackend { slot: _, device: _ } => {}
            Command::AddDevice { slot: _, device: _ } => {}
            Command::RemoveDevice(_) => {}
            Command::RemoveBackend(_) => {}
            Command::CopyBegin => {}
            Command::CopyPoll => {}
            Command::CopyTake => {}
            Command::CopyCancel => {}
            Command::LoadState(_) => {}
            Command::Kick(_) => {}
        }
    }
}

impl TryCopy for Command {
    fn copy(&self) -> Result<Command, NoMemory> {
        Ok(match self {
            Command::QueryStatus => Command::QueryStatus,
            Command::QueryMemory => Command::QueryMemory,
            Command::Cont => Command::Cont,
            Command::Stop => Command::Stop,
            Command::Powerdown => Command::Powerdown,
            Command::Reset => Command::Reset,
            Command::Quit => Command::Quit,
            Command::SetMemory(it) => Command::SetMemory(*it),
            Command::SetVcpus(it) => Command::SetVcpus(*it),
            Command::AddBackend { slot, device } => Command::AddBackend {
                slot: *slot,
                device: device.copy()?,
            },
            Command::AddDevice { slot, device } => Command::AddDevice {
                slot: *slot,
                device: device.copy()?,
            },
            Command::RemoveDevice(it) => Command::RemoveDevice(*it),
            Command::RemoveBackend(it) => Command::RemoveBackend(*it),
            Command::CopyBegin => Command::CopyBegin,
            Command::CopyPoll => Command::CopyPoll,
            Command::CopyTake => Command::CopyTake,
            Command::CopyCancel => Command::CopyCancel,
            Command::LoadState(it) => Command::LoadState(it.copy()?),
            Command::Kick(it) => Command::Kick(*it),
        })
    }
}

/// What an image holds, with its number in the image's file.
#[derive(Clone, Copy, Debug, PartialEq, Eq)]
pub enum ImageKind {
    /// A guest that was saved and can be restored.
    Save = 1,
    /// A guest that was written out and goes on.
    Dump = 2,
}

const KINDS: [ImageKind; 2] = [ImageKind::Save, ImageKind::Dump];

impl ImageKind {
    /// Its number.
    pub fn number(self) -> u32
        ensures { result ≡ image_number self }
    {
        self as u32
    }

    /// The kind with this number.
    pub fn of_number(number: u32) -> Option<ImageKind>
        ensures some { IfSome result (λ kind. image_number kind ≡ number) }
        ensures none { IfNone result ((kind : TheImageKind) → image_number kind ≢ number) }
    {
        KINDS.iter().copied().find(|kind| kind.number() == number)
    }
}

/// What a call asks: a command of the guest's monitor, or one of the five asks of the desk. What is
/// large is boxed, so that an ask takes 40 bytes.
pub enum Ask {
    /// This command to the guest's monitor.
    Command(Command),
    /// Make a guest.
    Make {
        /// Of this definition.
        definition: Boxed<DomainDef>,
        /// The number of its boot.
        boot: u64,
    },
    /// Store a definition.
    Put {
        /// Which one.
        definition: Boxed<DomainDef>,
        /// Whether the daemon starts the domain when it starts itself.
        autostart: bool,
    },
    /// Remove the stored definition of this domain.
    Drop(Uuid),
    /// Lease an address.
    Lease {
        /// The name of the network, as the definition has it; empty where it has none.
        network: Text,
        /// The interface that the address is for.
        mac: Mac,
    },
    /// Write a guest's state to a file.
    WriteImage {
        /// The name of the file, without its ending.
        name: Boxed<Name>,
        /// What the image holds.
        kind: ImageKind,
        /// Whether the guest ran.
        running: bool,
        /// The definition of the guest.
        definition: Boxed<DomainDef>,
        /// The state of the guest.
        bytes: Boxed<Bytes>,
    },
}

impl Drop for Ask {
    fn drop(self) {
        match self {
            Ask::Command(_) => {}
            Ask::Make {
                definition: _,
                boot: _,
            } => {}
            Ask::Put {
                definition: _,
                autostart: _,
            } => {}
            Ask::Drop(_) => {}
            Ask::Lease { network: _, mac: _ } => {}
            Ask::WriteImage {
                name: _,
                kind: _,
                definition: _,
                running: _,
                bytes: _,
            } => {}
        }
    }
}

impl TryCopy for Ask {
    fn copy(&self) -> Result<Ask, NoMemory> {
        Ok(match self {
            Ask::Command(it) => Ask::Command(it.copy()?),
            Ask::Make { definition, boot } => Ask::Make {
                definition: definition.copy()?,
                boot: *boot,
            },
            Ask::Put {
                definition,
                autostart,
            } => Ask::Put {
                definition: definition.copy()?,
                autostart: *autostart,
            },
            Ask::Drop(it) => Ask::Drop(*it),
            Ask::Lease { network, mac } => Ask::Lease {
                network: network.copy()?,
                mac: *mac,
            },
            Ask::WriteImage {
                name,
                kind,
                definition,
                running,
                bytes,
            } => {
                let (name, (definition, bytes)) = both(
                    name.copy(),
                    both(definition.copy(), bytes.copy()),
                )?;
                Ask::WriteImage {
                    name,
                    kind: *kind,
                    definition,
                    running: *running,
                    bytes,
                }
            }
        })
    }
}

/// What a guest reports of itself.
#[derive(Clone, Copy, Debug, PartialEq, Eq)]
pub enum GuestEvent {
    /// It shuts down.
    Shutdown,
    /// It is paused.
    Stop,
    /// It goes on.
    Resume,
    /// It can't go on.
    Panic,
    /// The device at this slot is gone.
    DeviceDeleted(u32),
    /// It begins again from the start.
    Reset,
}
