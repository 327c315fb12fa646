// What is asked.
use crate::parts::Same;
use virt_types::{Ask, Command};

impl Same for Command {
    fn same(&self, other: &Command) -> bool {
        match self {
            Command::QueryStatus => matches!(other, Command::QueryStatus),
            Command::QueryMemory => matches!(other, Command::QueryMemory),
            Command::Cont => matches!(other, Command::Cont),
            Command::Stop => matches!(other, Command::Stop),
            Command::Powerdown => matches!(other, Command::Powerdown),
            Command::Reset => matches!(other, Command::Reset),
            Command::Quit => matches!(other, Command::Quit),
            Command::SetMemory(it) => match other {
                Command::SetMemory(that) => *it == *that,
                _ => false,
            },
            Command::SetVcpus(it) => match other {
                Command::SetVcpus(that) => *it == *that,
                _ => false,
            },
            Command::AddBackend { slot, device } => match other {
                Command::AddBackend {
                    slot: other_slot,
                    device: other_device,
                } => *slot == *other_slot && device.same(other_device),
                _ => false,
            },
            Command::AddDevice { slot, device } => match other {
                Command::AddDevice {
                    slot: other_slot,
                    device: other_device,
                } => *slot == *other_slot && device.same(other_device),
                _ => false,
            },
            Command::RemoveDevice(it) => match other {
                Command::RemoveDevice(that) => *it == *that,
                _ => false,
            },
            Command::RemoveBackend(it) => match other {
                Command::RemoveBackend(that) => *it == *that,
                _ => false,
            },
            Command::CopyBegin => matches!(other, Command::CopyBegin),
            Command::CopyPoll => matches!(other, Command::CopyPoll),
            Command::CopyTake => matches!(other, Command::CopyTake),
            Command::CopyCancel => matches!(other, Command::CopyCancel),
            Command::LoadState(it) => match other {
                Command::LoadState(that) => it.same(that),
                _ => false,
            },
            Command::Kick(it) => match other {
                Command::Kick(that) => *it == *that,
                _ => false,
            },
        }
    }
}

impl Same for Ask {
    fn same(&self, other: &Ask) -> bool {
        match self {
            Ask::Command(it) => match other {
                Ask::Command(that) => it.same(that),
                _ => false,
            },
            Ask::Make { definition, boot } => match other {
                Ask::Make {
                    definition: other_definition,
                    boot: other_boot,
                } => definition.same(other_definition) && *boot == *other_boot,
                _ => false,
            },
            Ask::Put {
                definition,
                autostart,
            } => match other {
                Ask::Put {
                    definition: other_definition,
                    autostart: other_autostart,
                } => definition.same(other_definition) && *autostart == *other_autostart,
                _ => false,
            },
            Ask::Drop(it) => match other {
                Ask::Drop(that) => it.same(that),
                _ => false,
            },
            Ask::Lease { network, mac } => match other {
                Ask::Lease {
                    network: other_network,
                    mac: other_mac,
                } => network.same(other_network) && mac.same(other_mac),
                _ => false,
            },
            Ask::WriteImage {
                name,
                kind,
                definition,
                running,
                bytes,
            } => match other {
                Ask::WriteImage {
                    name: other_name,
                    kind: other_kind,
                    definition: other_definition,
                    running: other_running,
                    bytes: other_bytes,
                } => name.same(other_name)
                    && *kind == *other_kind
                    && definition.same(other_definition)
                    && *running == *other_running
                    && bytes.same(other_bytes),
                _ => false,
            },
        }
    }
}
