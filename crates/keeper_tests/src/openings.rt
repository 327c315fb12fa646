// A directory of both versions, and faults while it is opened or looked at.
use crate::failing::failing_at;
use crate::keepers::TestKeeper;
use def_keeper::{OpenFault, examine};
use files_disk::{Files, MemFiles};
use std::alloc::Global;
use virt_types::{Fault, NoMemory, OrNoMemory, Text};

const ONE: &str = "domain-01010101-0101-0101-0101-010101010101.def";

const TWO: &str = "domain-02020202-0202-0202-0202-020202020202.def";

const STATUS: &str = "run-01010101-0101-0101-0101-010101010101.sta";

const VERSION_1: &str = "def 1 autostart=yes name=a\n<a/>\n";

const VERSION_2: &str = "def 2 autostart=no name=b\ntitle=t\nlength=5\n<b/>\n";

// What an opening answered.
#[derive(Clone, Copy, Debug, PartialEq, Eq)]
enum Answer {
    Found(usize, usize),
    Device,
    Other,
}

fn put(alloc: Global, files: &mut MemFiles, name: &str, content: &str) -> bool {
    match Text::copy_of(alloc, name) {
        Ok(name) => {
            files.write(&name, content.as_bytes()).is_ok()
                && files.sync(&name).is_ok()
                && files.sync_dir().is_ok()
        }
        Err(NoMemory) => false,
    }
}

/// A directory of both versions, with a status file and one that reports nothing. Where there is no memory, with less.
pub(crate) fn both_versions(alloc: Global) -> MemFiles {
    let mut files = MemFiles::new(alloc);
    let contents = [
        (TWO, VERSION_2),
        (ONE, VERSION_1),
        (STATUS, "run 1 boot=7 state=1 op=0 phase=0 name=a\n"),
        ("run-x.sta", ""),
    ];
    for (name, content) in contents {
        put(alloc, &mut files, name, content);
    }
    files
}

// What an opening of that directory answers, where the call of this number fails.
fn opened(alloc: Global, number: u64) -> Answer {
    match TestKeeper::open(alloc, failing_at(alloc, both_versions(alloc), number)) {
        Ok((_keeper, found)) => Answer::Found(found.definitions.len(), found.statuses.len()),
        Err((_files, OrNoMemory::Fault(OpenFault::Device))) => Answer::Device,
        Err(_) => Answer::Other,
    }
}

// Whether an examination of that directory fails, where the call of this number does.
fn fails_examined(alloc: Global, number: u64) -> bool {
    let mut files = failing_at(alloc, both_versions(alloc), number);
    matches!(examine(alloc, &mut files), Err(Fault::Failed))
}

#[test]
fn a_fault_in_each_call_of_an_opening_or_examination_is_told(rt: HostRuntime) {
    for number in 1..9u64 {
        assert_eq!(rt; opened(rt.alloc(), number), Answer::Device);
    }
    assert_eq!(rt; opened(rt.alloc(), 9), Answer::Found(2, 2));
    for number in 1..7u64 {
        assert_eq!(rt; fails_examined(rt.alloc(), number), number < 6);
    }
}
