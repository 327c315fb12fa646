use crate::{Message, NotSaid, Unsaid, close, flush_once, open, say_once};
use packet::memory::{Failing, MemorySink};
use packet::{Header, MESSAGE, OK};
use std::alloc::Global;
use std::sync::Wait;
use std::test::Fail;
use types_base::{Bytes, Failed, NoMemory};

fn message(alloc: Global, bytes: &[u8]) -> Result<Message, NoMemory> {
    let bytes = Bytes::copy_of(alloc, bytes)?;
    Ok(Message {
        header: Header {
            prog: 1,
            vers: 1,
            procedure: 1,
            kind: MESSAGE,
            serial: 0,
            status: OK,
        },
        bytes,
        place: None,
    })
}

// What three messages, a flush and the close were answered, and the sink.
#[derive(Drop)]
struct Answers {
    first: Result<(), NotSaid>,
    second: Result<(), NotSaid>,
    third: Result<(), NotSaid>,
    flush: Result<(), NotSaid>,
    end: Result<(), Failed>,
    sink: MemorySink,
}

// Says three messages: whether more comes after the first, and after the second. None where there is
// no memory.
fn say_three<R: Wait>(
    rt: &R,
    alloc: Global,
    sink: MemorySink,
    messages: (&Message, &Message, &Message),
    more: (bool, bool),
) -> Option<Answers> {
    let (cell, pass) = open(alloc, sink).ok()?;
    let (pass, first) = say_once(rt, &cell, pass, messages.0, more.0);
    let (pass, second) = say_once(rt, &cell, pass, messages.1, more.1);
    let (pass, third) = say_once(rt, &cell, pass, messages.2, false);
    let (pass, flush) = flush_once(rt, &cell, pass);
    let (sink, end) = close(cell, pass);
    Some(Answers {
        first,
        second,
        third,
        flush,
        end,
        sink,
    })
}

// The answer where all is well, or the sink has failed.
fn answer(is_well: bool) -> Result<(), NotSaid> {
    if is_well {
        Ok(())
    } else {
        Err(NotSaid::Fault(Unsaid::SinkFault))
    }
}

#[test]
fn messages_of_a_burst_are_put_in_one_piece(rt: HostRuntime) -> Result<(), Fail> {
    let alloc = rt.alloc();
    let one = message(alloc, b"one")?;
    let two = message(alloc, b"two")?;
    let three = message(alloc, b"three")?;
    // A second piece would fail.
    let sink = MemorySink::new(alloc).failing(Failing::From(2));
    let Some(got) = say_three(&rt, alloc, sink, (&one, &two, &three), (true, true)) else {
        return Err("memory".into());
    };
    assert_eq!(rt; got.third, Ok(()));
    assert_eq!(rt; got.flush, Ok(()));
    assert_eq!(rt; got.end, Ok(()));
    assert_eq!(rt; got.sink.bytes(), b"onetwothree".as_slice());
    Ok(())
}

#[test]
fn a_sink_that_fails_after_each_number_of_bytes(rt: HostRuntime) -> Result<(), Fail> {
    let alloc = rt.alloc();
    let one = message(alloc, b"abc")?;
    let two = message(alloc, b"def")?;
    let three = message(alloc, b"g")?;
    for most in 0u64..8 {
        for more in [false, true] {
            // It takes a byte at a time.
            let sink = MemorySink::new(alloc)
                .at_most(1)
                .failing(Failing::From(most + 1));
            let Some(got) = say_three(&rt, alloc, sink, (&one, &two, &three), (more, false)) else {
                return Err("memory".into());
            };
            assert_eq!(rt; got.first, answer(more || most >= 3));
            assert_eq!(rt; got.second, answer(most >= 6));
            assert_eq!(rt; got.third, answer(most >= 7));
            assert_eq!(rt; got.flush, answer(most >= 7));
            assert_eq!(rt; got.end.is_ok(), most >= 7);
            assert_eq!(rt; got.sink.bytes().len() as u64, most.min(7));
            assert!(rt; b"abcdefg".starts_with(got.sink.bytes()));
        }
    }
    Ok(())
}

#[test]
fn what_does_not_fit_with_what_waits_is_put_at_once(rt: HostRuntime) -> Result<(), Fail> {
    let alloc = rt.alloc();
    let large = message(alloc, &[1; 16_380])?;
    let small = message(alloc, b"small")?;
    let last = message(alloc, b"last")?;
    // The third piece fails, so that both pieces before it show.
    let sink = MemorySink::new(alloc).failing(Failing::From(3));
    let Some(got) = say_three(&rt, alloc, sink, (&large, &small, &last), (true, true)) else {
        return Err("memory".into());
    };
    assert_eq!(rt; got.second, Ok(()));
    assert_eq!(rt; got.third, answer(false));
    assert_eq!(rt; got.sink.bytes().len(), 16_385);
    Ok(())
}
