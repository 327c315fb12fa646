// What a command line says.
use crate::form::{
    DomainFileVerb, DomainVerb, FileVerb, Flag, ImageVerb, NetworkVerb, NumberVerb, PlainVerb,
    PoolVerb, SnapshotVerb, VolumeVerb,
};
use virt_types::{ListOf, Text};

/// A domain of a daemon, whose events are wanted.
#[derive(Debug, Drop)]
pub struct Listen {
    /// The daemon's address.
    pub address: Text,
    /// The domain's name.
    pub name: Text,
}

/// Domains whose events are wanted, in order.
pub type ListenList = ListOf<Listen>;

/// A command with what it is about. A `file` is one that `virsh` reads; an `image` is a name in the
/// daemon's store.
#[derive(Drop)]
pub enum Command {
    /// It is about all domains, networks or pools.
    Plain {
        /// What is asked.
        verb: PlainVerb,
    },
    /// It is about a definition in a file.
    File {
        /// What is done with it.
        verb: FileVerb,
        /// The file.
        file: Text,
    },
    /// `restore`
    Restore {
        /// The image.
        image: Text,
    },
    /// It is about a domain.
    Domain {
        /// What is done with it.
        verb: DomainVerb,
        /// The domain's name.
        name: Text,
    },
    /// It is about a domain and a number.
    Number {
        /// What is done with them.
        verb: NumberVerb,
        /// The domain's name.
        name: Text,
        /// The number, below 10^9.
        number: u32,
    },
    /// `setmem`
    SetMem {
        /// The domain's name.
        name: Text,
        /// The memory in KiB, below 10^19.
        memory: u64,
    },
    /// It is about a domain and a text in a file.
    DomainFile {
        /// What is done with them.
        verb: DomainFileVerb,
        /// The domain's name.
        name: Text,
        /// The file.
        file: Text,
    },
    /// It is about a domain and an image of its guest.
    Image {
        /// What is done with them.
        verb: ImageVerb,
        /// The domain's name.
        name: Text,
        /// The image.
        image: Text,
    },
    /// It is about a snapshot of a domain.
    Snapshot {
        /// What is done with it.
        verb: SnapshotVerb,
        /// The domain's name.
        name: Text,
        /// The snapshot's name.
        snapshot: Text,
    },
    /// It is about a network.
    Network {
        /// What is done with it.
        verb: NetworkVerb,
        /// The network's name.
        name: Text,
    },
    /// It is about a pool.
    Pool {
        /// What is done with it.
        verb: PoolVerb,
        /// The pool's name.
        name: Text,
    },
    /// `vol-create`
    VolCreate {
        /// The pool's name.
        pool: Text,
        /// The file with the volume's definition.
        file: Text,
    },
    /// It is about a volume of a pool.
    Volume {
        /// What is done with it.
        verb: VolumeVerb,
        /// The pool's name.
        pool: Text,
        /// The volume's name.
        volume: Text,
    },
    /// `events`
    Events {
        /// How many events are wanted, below 10^9.
        count: u32,
        /// Whose: 1 to 16 domains.
        listens: ListenList,
    },
}

/// What a command line asks for.
#[derive(Drop)]
pub struct Job {
    /// The daemon's address, where one is given.
    pub address: Option<Text>,
    /// The command.
    pub command: Command,
    /// The command's option, where it is given.
    pub option: Option<Flag>,
}
