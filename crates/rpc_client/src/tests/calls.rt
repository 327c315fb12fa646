// A call that is refused.
ghost use Rattle.std.specs.Prelude.{◌<◌};

use super::link::{OPENED, PING, bytes_of, client, list, open};
use packet::memory::{MemorySink, MemorySource};
use std::alloc::Global;
use std::process::Abort;
use std::test::Fail;
use virt_types::{NoMemory, RefusalCode, Reply, Value};

// `invalid argument: -1 0`, as the second reply.
const REFUSED: [u32; 25] = [
    0x64,
    0x2000_8086,
    1,
    21,
    1,
    2,
    1,
    8,
    10,
    1,
    16,
    0x696e_7661,
    0x6c69_6420,
    0x6172_6775,
    0x6d65_6e74,
    2,
    0,
    1,
    4,
    0x2d31_2030,
    0,
    0,
    0,
    0,
    0,
];

fn check(rt: &impl Abort, alloc: Global, most: usize) -> Result<(), NoMemory>
    requires { 0 < most }
{
    let bytes = bytes_of(alloc, &[&PING, &OPENED, &REFUSED])?;
    let source = MemorySource::new(bytes).at_most(most);
    let mut client = client(alloc, source, MemorySink::new(alloc).at_most(most))?;
    assert!(rt; matches!(&client.call(&open()), Ok(Reply::Ok(Value::Nothing))));
    match &client.call(&list(-1)) {
        Ok(Reply::No(refusal)) => {
            assert!(rt; refusal.code == RefusalCode::InvalidArgument);
            assert_eq!(rt; refusal.kept.as_str(), "-1 0");
        }
        _ => assert!(rt; false, "no refusal"),
    }
    let (source, sink) = client.close();
    assert_eq!(rt; sink.bytes().len(), 0x24 + 0x20);
    assert_eq!(rt; source.left().len(), 0);
    Ok(())
}

#[test]
fn a_refusal_is_an_answer_in_any_pieces(rt: HostRuntime) -> Result<(), Fail> {
    check(&rt, rt.alloc(), 4096)?;
    check(&rt, rt.alloc(), 1)?;
    check(&rt, rt.alloc(), 7)?;
    Ok(())
}
