// The words of the domain format's lists. Each word is written once, and read by it.
ghost use Rattle.std.specs.Prelude.{◌≡◌};
ghost use Rattle.text_spec.specs.Words as spec;

use types_base::{
    BootDevice, CrashAction, DiskDevice, DiskType, DomainType, InterfaceType, LifecycleAction,
};

const DOMAIN_TYPES: [DomainType; 2] = [DomainType::Kvm, DomainType::Qemu];

/// The word for by what a domain is run.
pub fn domain_type_word(value: DomainType) -> &'static str
    ensures { result.now ≡ spec.domain_type_word value }
{
    match value {
        DomainType::Kvm => "kvm",
        DomainType::Qemu => "qemu",
    }
}

/// The value of a word: by what a domain is run.
#[tactic(auto, unfolding(text_spec::specs::Words::domain_type_of))]
pub fn domain_type_of(word: &str) -> Option<DomainType>
    ensures { result ≡ spec.domain_type_of word.now }
{
    DOMAIN_TYPES
        .iter()
        .copied()
        .find(|value| domain_type_word(*value) == word)
}

const BOOT_DEVICES: [BootDevice; 4] = [
    BootDevice::Hd,
    BootDevice::Cdrom,
    BootDevice::Network,
    BootDevice::Fd,
];

/// The word for what a guest is booted from.
pub fn boot_device_word(value: BootDevice) -> &'static str
    ensures { result.now ≡ spec.boot_device_word value }
{
    match value {
        BootDevice::Hd => "hd",
        BootDevice::Cdrom => "cdrom",
        BootDevice::Network => "network",
        BootDevice::Fd => "fd",
    }
}

/// The value of a word: what a guest is booted from.
#[tactic(auto, unfolding(text_spec::specs::Words::boot_device_of))]
pub fn boot_device_of(word: &str) -> Option<BootDevice>
    ensures { result ≡ spec.boot_device_of word.now }
{
    BOOT_DEVICES
        .iter()
        .copied()
        .find(|value| boot_device_word(*value) == word)
}

const LIFECYCLE_ACTIONS: [LifecycleAction; 4] = [
    LifecycleAction::Destroy,
    LifecycleAction::Restart,
    LifecycleAction::Preserve,
    LifecycleAction::RenameRestart,
];

/// The word for what follows when a guest powers off or reboots.
pub fn lifecycle_action_word(value: LifecycleAction) -> &'static str
    ensures { result.now ≡ spec.lifecycle_action_word value }
{
    match value {
        LifecycleAction::Destroy => "destroy",
        LifecycleAction::Restart => "restart",
        LifecycleAction::Preserve => "preserve",
        LifecycleAction::RenameRestart => "rename-restart",
    }
}

/// The value of a word: what follows when a guest powers off or reboots.
#[tactic(auto, unfolding(text_spec::specs::Words::lifecycle_action_of))]
pub fn lifecycle_action_of(word: &str) -> Option<LifecycleAction>
    ensures { result ≡ spec.lifecycle_action_of word.now }
{
    LIFECYCLE_ACTIONS
        .iter()
        .copied()
        .find(|value| lifecycle_action_word(*value) == word)
}

const CRASH_ACTIONS: [CrashAction; 6] = [
    CrashAction::Destroy,
    CrashAction::Restart,
    CrashAction::Preserve,
    CrashAction::RenameRestart,
    CrashAction::CoredumpDestroy,
    CrashAction::CoredumpRestart,
];

/// The word for what follows when a guest crashes.
pub fn crash_action_word(value: CrashAction) -> &'static str
    ensures { result.now ≡ spec.crash_action_word value }
{
    match value {
        CrashAction::Destroy => "destroy",
        CrashAction::Restart => "restart",
        CrashAction::Preserve => "preserve",
        CrashAction::RenameRestart => "rename-restart",
        CrashAction::CoredumpDestroy => "coredump-destroy",
        CrashAction::CoredumpRestart => "coredump-restart",
    }
}

/// The value of a word: what follows when a guest crashes.
#[tactic(auto, unfolding(text_spec::specs::Words::crash_action_of))]
pub fn crash_action_of(word: &str) -> Option<CrashAction>
    ensures { result ≡ spec.crash_action_of word.now }
{
    CRASH_ACTIONS
        .iter()
        .copied()
        .find(|value| crash_action_word(*value) == word)
}

const DISK_TYPES: [DiskType; 3] = [DiskType::File, DiskType::Block, DiskType::Volume];

/// The word for what a disk's source is.
pub fn disk_type_word(value: DiskType) -> &'static str
    ensures { result.now ≡ spec.disk_type_word value }
{
    match value {
        DiskType::File => "file",
        DiskType::Block => "block",
        DiskType::Volume => "volume",
    }
}

/// The value of a word: what a disk's source is.
#[tactic(auto, unfolding(text_spec::specs::Words::disk_type_of))]
pub fn disk_type_of(word: &str) -> Option<DiskType>
    ensures { result ≡ spec.disk_type_of word.now }
{
    DISK_TYPES
        .iter()
        .copied()
        .find(|value| disk_type_word(*value) == word)
}

const DISK_DEVICES: [DiskDevice; 4] = [
    DiskDevice::Disk,
    DiskDevice::Cdrom,
    DiskDevice::Lun,
    DiskDevice::Floppy,
];

/// The word for what a guest sees a disk as.
pub fn disk_device_word(value: DiskDevice) -> &'static str
    ensures { result.now ≡ spec.disk_device_word value }
{
    match value {
        DiskDevice::Disk => "disk",
        DiskDevice::Cdrom => "cdrom",
        DiskDevice::Lun => "lun",
        DiskDevice::Floppy => "floppy",
    }
}

/// The value of a word: what a guest sees a disk as.
#[tactic(auto, unfolding(text_spec::specs::Words::disk_device_of))]
pub fn disk_device_of(word: &str) -> Option<DiskDevice>
    ensures { result ≡ spec.disk_device_of word.now }
{
    DISK_DEVICES
        .iter()
        .copied()
        .find(|value| disk_device_word(*value) == word)
}

const INTERFACE_TYPES: [InterfaceType; 3] = [
    InterfaceType::Network,
    InterfaceType::Bridge,
    InterfaceType::User,
];

/// The word for what an interface is joined to.
pub fn interface_type_word(value: InterfaceType) -> &'static str
    ensures { result.now ≡ spec.interface_type_word value }
{
    match value {
        InterfaceType::Network => "network",
        InterfaceType::Bridge => "bridge",
        InterfaceType::User => "user",
    }
}

/// The value of a word: what an interface is joined to.
#[tactic(auto, unfolding(text_spec::specs::Words::interface_type_of))]
pub fn interface_type_of(word: &str) -> Option<InterfaceType>
    ensures { result ≡ spec.interface_type_of word.now }
{
    INTERFACE_TYPES
        .iter()
        .copied()
        .find(|value| interface_type_word(*value) == word)
}
