// What the payloads of a procedure hold.

/// What a call is for: the first of its arguments. A domain is its name, its identifier and its
/// number, a network and a pool are name and identifier.
#[derive(Clone, Copy, Debug, PartialEq, Eq)]
#[allow(missing_docs)]
pub enum TargetShape {
    Nothing,
    Domain,
    Network,
    Pool,
}

/// What the payload of a call holds after that, one item after the other. A definition is a text
/// of at most 65,536 bytes, a name any text, and a state at most 4,096 bytes.
#[derive(Clone, Copy, Debug, PartialEq, Eq)]
#[allow(missing_docs)]
pub enum ArgumentShape {
    Nothing,
    Word,
    Integer,
    DoubleWord,
    Uuid,
    Definition,
    Name,
    NameWord,
    NameInteger,
    OptionalNameWord,
    DefinitionInteger,
    DefinitionIntegerState,
}

/// What the payload of a reply holds.
#[derive(Clone, Copy, Debug, PartialEq, Eq)]
#[allow(missing_docs)]
pub enum ResultShape {
    Nothing,
    Domain,
    Network,
    Pool,
    Text,
    Name,
    OptionalName,
    Autostart,
    DoubleWord,
    Names,
    Info,
    Job,
    Domains,
    Pools,
    Leases,
    Titles,
    Migrated,
}
