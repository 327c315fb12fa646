use types_base::{Bytes, CellName, Front};
use wire_spec::Header;

/// Where the outcome rests that a reply tells: a place in the history of a cell.
#[derive(Clone, Copy, Debug, PartialEq, Eq)]
pub struct Place {
    /// The cell.
    pub cell: CellName,
    /// How far its history had come.
    pub front: Front,
}

/// A message on its way to a sink.
#[derive(Drop)]
pub struct Message {
    /// The header that its bytes begin with.
    pub header: Header,
    /// Its bytes, the header's among them.
    pub bytes: Bytes,
    /// For a reply, where its outcome rests.
    pub place: Option<Place>,
}
