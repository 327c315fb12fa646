//! Definitions of networks, pools and volumes, from text to text, which no program serves yet. In the input each text stands under
//! its head, which says as what it is read; under the same head is told how the definition is printed, or its first fault.
#![tactic(auto)]

mod texts;

use std::alloc::Global;
use std::io;
use texts::printed;
use types_base::OrNoMemory;

/// How the head of a text begins.
const HEAD: &str = "== ";

// Tells of a text under its head.
fn tell<R: Print>(rt: &R, alloc: Global, part: &str) -> io::Result<()> {
    let (kind, text) = part.split_once('\n').unwrap_or((part, ""));
    match printed(alloc, kind, text) {
        Ok(text) => print!(rt; "{HEAD}{kind}\n{}", text.as_str()),
        Err(OrNoMemory::Fault(fault)) => println!(rt; "{HEAD}{kind}\n{fault}"),
        Err(OrNoMemory::NoMemory) => println!(rt; "{HEAD}{kind}\nout of memory"),
    }
}

fn main(rt: HostRuntime) -> io::Result<()> {
    let alloc = rt.alloc();
    let input = io::read_to_string(alloc, rt.stdin())?;
    let (remarks, texts) = input.as_str().split_once(HEAD).unwrap_or(("", ""));
    print!(rt; "{remarks}")?;
    for part in texts.split(HEAD) {
        tell(&rt, alloc, part)?;
    }
    Ok(())
}
