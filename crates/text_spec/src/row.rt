// What a row of an element table says.
use crate::vocabulary::{AttributeName, ElementName};

/// Where a row's elements are, seen from the element of its table. Of several outer elements the
/// first counts.
#[derive(Clone, Copy, Debug, PartialEq, Eq)]
pub enum Place {
    /// The element itself.
    Here,
    /// The elements of this name in it.
    Child(ElementName),
    /// The elements of the second name in the first one of the first name.
    Inside(ElementName, ElementName),
}

/// What of an element a row is about.
#[derive(Clone, Copy, Debug, PartialEq, Eq)]
pub enum Source {
    /// The text of the element.
    Text,
    /// One of its attributes.
    Attribute(AttributeName),
}

/// How often a value occurs.
#[derive(Clone, Copy, Debug, PartialEq, Eq)]
pub enum Need {
    /// Once: in the first element of the place, where it may not be absent.
    Needed,
    /// Once, or not at all: in the first element of the place.
    Optional,
    /// Once in each element of the place, of which there may be any number.
    Each,
}

/// What a value may be.
#[derive(Clone, Copy, Debug, PartialEq, Eq)]
pub enum Content {
    /// Any text.
    Text,
    /// Any text but the empty one.
    Filled,
    /// A name, as `types_base::Name` is one.
    Name,
    /// An identifier in one of the forms of a UUID.
    Uuid,
    /// A MAC address.
    Mac,
    /// The script of a modelled guest.
    Script,
    /// Memory in the unit of the element's attribute `unit`.
    Memory,
    /// A number of processors, 1 to 255.
    Vcpus,
    /// A number of processors from 1 to the number that the element's text is.
    CurrentVcpus,
    /// `kvm` or `qemu`.
    DomainType,
    /// What is booted from.
    BootDevice,
    /// What follows when a guest powers off or reboots.
    LifecycleAction,
    /// What follows when a guest crashes.
    CrashAction,
    /// What a disk's source is.
    DiskType,
    /// What a guest sees a disk as.
    DiskDevice,
    /// What an interface is joined to.
    InterfaceType,
}

/// A row of an element table.
#[derive(Clone, Copy, Debug, PartialEq, Eq)]
pub struct Row {
    /// Where its elements are.
    pub place: Place,
    /// What of them it is about.
    pub source: Source,
    /// How often it occurs.
    pub need: Need,
    /// What it may be.
    pub content: Content,
}
