// The commands by their words.
ghost use Rattle.std.specs.Prelude.{◌≡◌};
ghost use Rattle.command_spec.specs.Commands.{command_word, flag_word, form_of, option_of};

/// A command without names: `list`, `net-list`, `pool-list`.
#[derive(Clone, Copy, Debug, PartialEq, Eq)]
#[allow(missing_docs)]
pub enum PlainVerb {
    List,
    NetList,
    PoolList,
}

/// A command for a definition in a file: `define`, `create`, `net-define`, `pool-define`.
#[derive(Clone, Copy, Debug, PartialEq, Eq)]
#[allow(missing_docs)]
pub enum FileVerb {
    Define,
    Create,
    NetDefine,
    PoolDefine,
}

/// A command for a domain alone.
#[derive(Clone, Copy, Debug, PartialEq, Eq)]
#[allow(missing_docs)]
pub enum DomainVerb {
    Info,
    State,
    Start,
    Shutdown,
    Reboot,
    Suspend,
    Resume,
    Destroy,
    Undefine,
    Autostart,
    DumpXml,
    JobInfo,
    JobAbort,
    MemStat,
    SnapshotList,
}

/// A command for a domain and a number.
#[derive(Clone, Copy, Debug, PartialEq, Eq)]
#[allow(missing_docs)]
pub enum NumberVerb {
    SetVcpus,
    Kick,
    Event,
}

/// A command for a domain and the text of a device or of a snapshot.
#[derive(Clone, Copy, Debug, PartialEq, Eq)]
#[allow(missing_docs)]
pub enum DomainFileVerb {
    AttachDevice,
    DetachDevice,
    SnapshotCreate,
}

/// A command that writes an image of a guest.
#[derive(Clone, Copy, Debug, PartialEq, Eq)]
#[allow(missing_docs)]
pub enum ImageVerb {
    Save,
    Dump,
}

/// A command for a snapshot.
#[derive(Clone, Copy, Debug, PartialEq, Eq)]
#[allow(missing_docs)]
pub enum SnapshotVerb {
    Parent,
    DumpXml,
    Delete,
    Revert,
}

/// A command for a network.
#[derive(Clone, Copy, Debug, PartialEq, Eq)]
#[allow(missing_docs)]
pub enum NetworkVerb {
    Start,
    Destroy,
    Undefine,
    Autostart,
    DumpXml,
    Leases,
}

/// A command for a pool.
#[derive(Clone, Copy, Debug, PartialEq, Eq)]
#[allow(missing_docs)]
pub enum PoolVerb {
    Start,
    Destroy,
    Undefine,
    Autostart,
    DumpXml,
    VolList,
}

/// A command for a volume.
#[derive(Clone, Copy, Debug, PartialEq, Eq)]
#[allow(missing_docs)]
pub enum VolumeVerb {
    Delete,
    DumpXml,
}

/// An option of a command: `--all`, `--disable`, `--inactive`, `--verbose`, `--children`.
#[derive(Clone, Copy, Debug, PartialEq, Eq)]
#[allow(missing_docs)]
pub enum Flag {
    All,
    Disable,
    Inactive,
    Verbose,
    Children,
}

/// A command without what it is about: what follows its word, and what is done with that.
#[derive(Clone, Copy, Debug, PartialEq, Eq)]
pub enum Form {
    /// Nothing.
    Plain(PlainVerb),
    /// A file.
    File(FileVerb),
    /// An image.
    Restore,
    /// A domain.
    Domain(DomainVerb),
    /// A domain, and a number of 1 to 9 digits.
    Number(NumberVerb),
    /// A domain, and a number of 1 to 19 digits.
    SetMem,
    /// A domain and a file.
    DomainFile(DomainFileVerb),
    /// A domain and an image.
    Image(ImageVerb),
    /// A domain and a snapshot.
    Snapshot(SnapshotVerb),
    /// A network.
    Network(NetworkVerb),
    /// A pool.
    Pool(PoolVerb),
    /// A pool and a file.
    VolCreate,
    /// A pool and a volume.
    Volume(VolumeVerb),
    /// A number of 1 to 9 digits, and then 1 to 16 addresses, each with a domain.
    Events,
}

/// The commands, in the order of the manual.
pub const COMMANDS: [Form; 52] = [
    Form::Plain(PlainVerb::List),
    Form::Domain(DomainVerb::Info),
    Form::Domain(DomainVerb::State),
    Form::File(FileVerb::Define),
    Form::File(FileVerb::Create),
    Form::Domain(DomainVerb::Start),
    Form::Domain(DomainVerb::Shutdown),
    Form::Domain(DomainVerb::Reboot),
    Form::Domain(DomainVerb::Suspend),
    Form::Domain(DomainVerb::Resume),
    Form::Domain(DomainVerb::Destroy),
    Form::Domain(DomainVerb::Undefine),
    Form::Domain(DomainVerb::Autostart),
    Form::SetMem,
    Form::Number(NumberVerb::SetVcpus),
    Form::DomainFile(DomainFileVerb::AttachDevice),
    Form::DomainFile(DomainFileVerb::DetachDevice),
    Form::Domain(DomainVerb::DumpXml),
    Form::Image(ImageVerb::Save),
    Form::Image(ImageVerb::Dump),
    Form::Restore,
    Form::Domain(DomainVerb::JobInfo),
    Form::Domain(DomainVerb::JobAbort),
    Form::Domain(DomainVerb::MemStat),
    Form::Number(NumberVerb::Kick),
    Form::Number(NumberVerb::Event),
    Form::Events,
    Form::DomainFile(DomainFileVerb::SnapshotCreate),
    Form::Domain(DomainVerb::SnapshotList),
    Form::Snapshot(SnapshotVerb::Parent),
    Form::Snapshot(SnapshotVerb::DumpXml),
    Form::Snapshot(SnapshotVerb::Delete),
    Form::Snapshot(SnapshotVerb::Revert),
    Form::Plain(PlainVerb::NetList),
    Form::File(FileVerb::NetDefine),
    Form::Network(NetworkVerb::Start),
    Form::Network(NetworkVerb::Destroy),
    Form::Network(NetworkVerb::Undefine),
    Form::Network(NetworkVerb::Autostart),
    Form::Network(NetworkVerb::DumpXml),
    Form::Network(NetworkVerb::Leases),
    Form::Plain(PlainVerb::PoolList),
    Form::File(FileVerb::PoolDefine),
    Form::Pool(PoolVerb::Start),
    Form::Pool(PoolVerb::Destroy),
    Form::Pool(PoolVerb::Undefine),
    Form::Pool(PoolVerb::Autostart),
    Form::Pool(PoolVerb::DumpXml),
    Form::VolCreate,
    Form::Pool(PoolVerb::VolList),
    Form::Volume(VolumeVerb::Delete),
    Form::Volume(VolumeVerb::DumpXml),
];

impl Form {
    /// The word of the command.
    pub fn word(self) -> &'static str
        ensures { result.now ≡ command_word self }
    {
        match self {
            Form::Plain(PlainVerb::List) => "list",
            Form::Domain(DomainVerb::Info) => "dominfo",
            Form::Domain(DomainVerb::State) => "domstate",
            Form::File(FileVerb::Define) => "define",
            Form::File(FileVerb::Create) => "create",
            Form::Domain(DomainVerb::Start) => "start",
            Form::Domain(DomainVerb::Shutdown) => "shutdown",
            Form::Domain(DomainVerb::Reboot) => "reboot",
            Form::Domain(DomainVerb::Suspend) => "suspend",
            Form::Domain(DomainVerb::Resume) => "resume",
            Form::Domain(DomainVerb::Destroy) => "destroy",
            Form::Domain(DomainVerb::Undefine) => "undefine",
            Form::Domain(DomainVerb::Autostart) => "autostart",
            Form::SetMem => "setmem",
            Form::Number(NumberVerb::SetVcpus) => "setvcpus",
            Form::DomainFile(DomainFileVerb::AttachDevice) => "attach-device",
            Form::DomainFile(DomainFileVerb::DetachDevice) => "detach-device",
            Form::Domain(DomainVerb::DumpXml) => "dumpxml",
            Form::Image(ImageVerb::Save) => "save",
            Form::Image(ImageVerb::Dump) => "dump",
            Form::Restore => "restore",
            Form::Domain(DomainVerb::JobInfo) => "domjobinfo",
            Form::Domain(DomainVerb::JobAbort) => "domjobabort",
            Form::Domain(DomainVerb::MemStat) => "dommemstat",
            Form::Number(NumberVerb::Kick) => "guest-kick",
            Form::Number(NumberVerb::Event) => "event",
            Form::Events => "events",
            Form::DomainFile(DomainFileVerb::SnapshotCreate) => "snapshot-create",
            Form::Domain(DomainVerb::SnapshotList) => "snapshot-list",
            Form::Snapshot(SnapshotVerb::Parent) => "snapshot-parent",
            Form::Snapshot(SnapshotVerb::DumpXml) => "snapshot-dumpxml",
            Form::Snapshot(SnapshotVerb::Delete) => "snapshot-delete",
            Form::Snapshot(SnapshotVerb::Revert) => "snapshot-revert",
            Form::Plain(PlainVerb::NetList) => "net-list",
            Form::File(FileVerb::NetDefine) => "net-define",
            Form::Network(NetworkVerb::Start) => "net-start",
            Form::Network(NetworkVerb::Destroy) => "net-destroy",
            Form::Network(NetworkVerb::Undefine) => "net-undefine",
            Form::Network(NetworkVerb::Autostart) => "net-autostart",
            Form::Network(NetworkVerb::DumpXml) => "net-dumpxml",
            Form::Network(NetworkVerb::Leases) => "net-leases",
            Form::Plain(PlainVerb::PoolList) => "pool-list",
            Form::File(FileVerb::PoolDefine) => "pool-define",
            Form::Pool(PoolVerb::Start) => "pool-start",
            Form::Pool(PoolVerb::Destroy) => "pool-destroy",
            Form::Pool(PoolVerb::Undefine) => "pool-undefine",
            Form::Pool(PoolVerb::Autostart) => "pool-autostart",
            Form::Pool(PoolVerb::DumpXml) => "pool-dumpxml",
            Form::VolCreate => "vol-create",
            Form::Pool(PoolVerb::VolList) => "vol-list",
            Form::Volume(VolumeVerb::Delete) => "vol-delete",
            Form::Volume(VolumeVerb::DumpXml) => "vol-dumpxml",
        }
    }

    /// The option that the command may have.
    pub fn option(self) -> Option<Flag>
        ensures { result ≡ option_of self }
    {
        match self {
            Form::Plain(PlainVerb::List) => Some(Flag::All),
            Form::Domain(DomainVerb::Autostart) => Some(Flag::Disable),
            Form::Domain(DomainVerb::DumpXml) => Some(Flag::Inactive),
            Form::Image(_) => Some(Flag::Verbose),
            Form::Snapshot(SnapshotVerb::Delete) => Some(Flag::Children),
            _ => None,
        }
    }

    /// The command with this word.
    #[tactic(auto, unfolding(crate::specs::Commands::form_of))]
    pub fn of_word(word: &str) -> Option<Form>
        ensures { result ≡ form_of word.now }
    {
        COMMANDS.iter().copied().find(|form| form.word() == word)
    }
}

impl Flag {
    /// The word of the option.
    pub fn word(self) -> &'static str
        ensures { result.now ≡ flag_word self }
    {
        match self {
            Flag::All => "--all",
            Flag::Disable => "--disable",
            Flag::Inactive => "--inactive",
            Flag::Verbose => "--verbose",
            Flag::Children => "--children",
        }
    }
}
