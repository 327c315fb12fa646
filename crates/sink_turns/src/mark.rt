// What is kept of each change of a sink. Contracts alone see it, and it takes no bytes.
ghost use Rattle.std.specs.Borrow.{ftrue};
ghost use Rattle.std.specs.Prelude.{◌≡◌};
ghost use Rattle.sink_turns.specs.declared.mark.Mark.{Mark};

use crate::message::Message;
use std::collections::LinkedList;
use std::marker::{Model, PhantomData};

/// A change of a sink. No value of it is made.
pub enum Deed {
    /// A message was said: it waits to be put.
    Said(Message),
    /// All that waited was put.
    Put,
    /// The sink failed once it took so many of the bytes that waited.
    Cut(u64),
}

/// A change, and the number of the pass in whose turn it was made. No value of it is made.
pub struct Mark {
    pub by: u64,
    pub deed: Deed,
}

/// A sink before the first message: the bytes that it held, where it reports them, and how often it
/// had failed. No value of it is made.
pub struct Start {
    pub held: Option<LinkedList<u8>>,
    pub faults: u64,
}

/// A mark without bytes.
#[derive(Drop)]
pub struct Noted {
    of: PhantomData<u64>,
    pub ghost mark: { Mark },
}

impl Model for Noted {
    ghost also_owns = { λ _. ftrue };
}

// It owns nothing.
unsafe impl Send for Noted {}

unsafe impl Sync for Noted {}

impl Noted {
    // The mark that the caller names.
    fn named() -> Noted
        ghost mark: { Mark }
        ensures { result.mark ≡ mark }
    {
        Noted { of: PhantomData }
    }
}

// A mark is named in two steps, since a pick sees the callee's arguments alone.

/// That this message was said.
pub(crate) fn note_said(_message: &Message) -> Noted
    ghost mark: { Mark }
    ensures { result.mark ≡ mark }
{
    Noted::named()
}

/// That all was put.
pub(crate) fn note_put() -> Noted
    ghost mark: { Mark }
    ensures { result.mark ≡ mark }
{
    Noted::named()
}

/// That the sink failed once it took so many bytes.
pub(crate) fn note_cut(_count: usize) -> Noted
    ghost mark: { Mark }
    ensures { result.mark ≡ mark }
{
    Noted::named()
}
