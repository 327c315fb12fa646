//! Laws of the marks of a sink. The functions do nothing; proofs use what they promise.
ghost use Rattle.sink_turns.specs.Laws.{FaultsStay, MessagesAddUp};

/// Where a pass has seen that the sink failed, it has failed in each longer history, and there is
/// nothing more in that.
pub fn a_fault_is_the_end()
    ensures { FaultsStay }
{}

/// What was taken and what waits are the bytes of all messages, in order.
pub fn messages_add_up()
    ensures { MessagesAddUp }
{}
