ghost use Rattle.std.specs.Prelude.{Option};
ghost use Rattle.sink_turns.specs.declared.message.Message.{Message};

use sink_turns::Message;
use std::sync::Wait;

/// What answers pieces, each by a message.
pub trait Answers {
    /// What is to be answered.
    type Piece: Drop;
    /// What a worker needs of its own to answer.
    type Row: Drop;

    // Whether such a row may be used here.
    ghost is_row: { Self → Self.Row → Type 0 };

    // How a piece was answered with a row, by which message, and which row that left. There may be
    // no message for want of memory.
    ghost has_answered: { Self → Self.Row → Self.Piece → Option Message → Self.Row → Type 0 };

    /// Whether an answer to this piece may take long. What waits in the sink is put before it.
    fn may_take_long(&self, piece: &Self::Piece) -> bool;

    /// Answers a piece. None where there was no memory for the message.
    fn answer<R: Wait>(
        &self,
        rt: &R,
        row: Self::Row,
        piece: Self::Piece,
    ) -> (Self::Row, Option<Message>)
        requires { is_row self.now row }
        ensures answered { has_answered self.now row piece result.1 result.0 }
        ensures row { is_row self.now result.0 };
}
