// What calls hold, as values.
use virt_types::{Bytes, DomainTarget, NetworkTarget, PoolTarget, Text, Uuid};

/// What a call is for.
#[derive(Drop)]
pub enum Target {
    /// Nothing that its first argument names.
    Nothing,
    /// A domain.
    Domain(DomainTarget),
    /// A network.
    Network(NetworkTarget),
    /// A pool.
    Pool(PoolTarget),
}

/// What a call holds beside that, one item after the other.
#[derive(Drop)]
pub enum Arguments {
    /// Nothing.
    Nothing,
    /// An unsigned integer.
    Word(u32),
    /// An integer.
    Integer(i32),
    /// An unsigned hyper integer.
    DoubleWord(u64),
    /// An identifier.
    Uuid(Uuid),
    /// The text of a definition.
    Definition(Text),
    /// A text that names something.
    Name(Text),
    /// Such a text and an unsigned integer.
    NameWord(Text, u32),
    /// Such a text and an integer.
    NameInteger(Text, i32),
    /// Such a text, which may be absent, and an unsigned integer.
    OptionalNameWord(Option<Text>, u32),
    /// The text of a definition and an integer.
    DefinitionInteger(Text, i32),
    /// The text of a definition, an integer and a guest's state.
    DefinitionIntegerState(Text, i32, Bytes),
}
