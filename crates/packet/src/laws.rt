// What is true of every stream, however it is cut. A law has nothing to run.
ghost use Rattle.packet.specs.Laws.{MoreBytesAdd, NoPacketBeginsSo, ReadsAgain, SoundBefore, SplitsHoweverCut, SplitsOneWay, WholePacketsLeaveNothing};

/// Bytes are packets and a rest in one way.
pub fn one_way()
    ensures { SplitsOneWay }
{}

/// However a stream is cut, and whenever packets are asked for: those given so far, those that wait
/// and the bytes after them are the packets and the rest of all bytes fed.
pub fn any_cutting()
    ensures { SplitsHoweverCut }
{}

/// More bytes of a stream only add packets after those that were there.
pub fn more_bytes()
    ensures { MoreBytesAdd }
{}

/// Bytes that are packets and nothing else are split into these packets, and nothing is left.
pub fn whole_stream()
    ensures { WholePacketsLeaveNothing }
{}

/// A front of bytes in which no fault shows has none either.
pub fn sound_front()
    ensures { SoundBefore }
{}

/// No packet begins with bytes that have a fault, whatever follows them.
pub fn no_packet()
    ensures { NoPacketBeginsSo }
{}

/// What was written is read again as the same packet, whatever follows it.
pub fn read_again()
    ensures { ReadsAgain }
{}
