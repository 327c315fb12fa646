// All commands, and where words are those of none.
use crate::{Command, Flag, Form, Job, WordFault, read_words};
use std::alloc::{AllocError, Global};
use std::process::Abort;
use std::test::Fail;
use types_base::{OrNoMemory, Text};

fn words_of(alloc: Global, line: &'static str) -> Result<Vec<String>, AllocError> {
    let mut words = Vec::new(alloc);
    if line.is_empty() {
        return Ok(words);
    }
    for word in line.split(' ') {
        words.push(String::from_str(alloc, word)?)?;
    }
    Ok(words)
}

fn refused(rt: &impl Abort, alloc: Global, line: &'static str, at: u64) -> Result<(), AllocError> {
    let words = words_of(alloc, line)?;
    match read_words(alloc, words.as_slice()) {
        Ok(_) => assert!(rt; false, "taken: {line}"),
        Err(fault) => assert_eq!(rt; fault, OrNoMemory::Fault(WordFault { at }), "at {line}"),
    }
    Ok(())
}

// A command of one word more.
fn with_one(alloc: Global, verb: &'static str, one: &Text) -> Result<String, AllocError> {
    format!(in alloc; "{verb} {}", one.as_str())
}

// A command of two words more.
fn with_two(
    alloc: Global,
    verb: &'static str,
    one: &Text,
    other: &Text,
) -> Result<String, AllocError> {
    format!(in alloc; "{verb} {} {}", one.as_str(), other.as_str())
}

fn spelled_command(alloc: Global, command: &Command) -> Result<String, AllocError> {
    match command {
        Command::Plain { verb } => String::from_str(alloc, Form::Plain(*verb).word()),
        Command::File { verb, file } => with_one(alloc, Form::File(*verb).word(), file),
        Command::Restore { image } => with_one(alloc, "restore", image),
        Command::Domain { verb, name } => with_one(alloc, Form::Domain(*verb).word(), name),
        Command::Number { verb, name, number } => {
            format!(in alloc; "{} {} {number}", Form::Number(*verb).word(), name.as_str())
        }
        Command::SetMem { name, memory } => format!(in alloc; "setmem {} {memory}", name.as_str()),
        Command::DomainFile { verb, name, file } => {
            with_two(alloc, Form::DomainFile(*verb).word(), name, file)
        }
        Command::Image { verb, name, image } => {
            with_two(alloc, Form::Image(*verb).word(), name, image)
        }
        Command::Snapshot {
            verb,
            name,
            snapshot,
        } => with_two(alloc, Form::Snapshot(*verb).word(), name, snapshot),
        Command::Network { verb, name } => with_one(alloc, Form::Network(*verb).word(), name),
        Command::Pool { verb, name } => with_one(alloc, Form::Pool(*verb).word(), name),
        Command::VolCreate { pool, file } => with_two(alloc, "vol-create", pool, file),
        Command::Volume { verb, pool, volume } => {
            with_two(alloc, Form::Volume(*verb).word(), pool, volume)
        }
        Command::Events { count, listens } => {
            format!(in alloc; "events {count} of {}", listens.len())
        }
    }
}

// A job in one line, its option last.
fn spelled(alloc: Global, job: &Job) -> Result<String, AllocError> {
    let command = spelled_command(alloc, &job.command)?;
    let option = job.option.map_or("", Flag::word);
    match &job.address {
        Some(address) => format!(in alloc; "-c {} {command} {option}", address.as_str()),
        None => format!(in alloc; "{command} {option}"),
    }
}

fn taken(
    rt: &impl Abort,
    alloc: Global,
    line: &'static str,
    wanted: &'static str,
) -> Result<(), AllocError> {
    let words = words_of(alloc, line)?;
    match read_words(alloc, words.as_slice()) {
        Ok(job) => assert_eq!(rt;
            spelled(alloc, &job)?.as_str().trim_end(),
            wanted,
            "at {line}"
        ),
        Err(fault) => assert!(rt; false, "refused: {line}: {fault}"),
    }
    Ok(())
}

// Each command with what it takes, its option last.
const COMMANDS: [&str; 59] = [
    "list",
    "list --all",
    "dominfo a",
    "domstate a",
    "define f",
    "create f",
    "start a",
    "shutdown a",
    "reboot a",
    "suspend a",
    "resume a",
    "destroy a",
    "undefine a",
    "autostart a",
    "autostart a --disable",
    "setmem a 9999999999999999999",
    "setvcpus a 999999999",
    "setvcpus a 0",
    "attach-device a f",
    "detach-device a f",
    "dumpxml a",
    "dumpxml a --inactive",
    "save a i",
    "save a i --verbose",
    "dump a i --verbose",
    "restore i",
    "domjobinfo a",
    "domjobabort a",
    "dommemstat a",
    "guest-kick a 5",
    "event a 1",
    "snapshot-create a f",
    "snapshot-list a",
    "snapshot-parent a s",
    "snapshot-dumpxml a s",
    "snapshot-delete a s",
    "snapshot-delete a s --children",
    "snapshot-revert a s",
    "net-list",
    "net-define f",
    "net-start n",
    "net-destroy n",
    "net-undefine n",
    "net-autostart n",
    "net-dumpxml n",
    "net-leases n",
    "pool-list",
    "pool-define f",
    "pool-start p",
    "pool-destroy p",
    "pool-undefine p",
    "pool-autostart p",
    "pool-dumpxml p",
    "vol-create p f",
    "vol-list p",
    "vol-delete p v",
    "vol-dumpxml p v",
    "-c 10.0.0.1:16509 list",
    "start -x",
];

// Options may come anywhere after the command; an empty word is a name where one is wanted.
const OTHERS: [(&str, &str); 7] = [
    ("autostart --disable a", "autostart a --disable"),
    ("save --verbose a i", "save a i --verbose"),
    ("dump a --verbose i", "dump a i --verbose"),
    ("events 3 x a", "events 3 of 1"),
    ("events 3 x a x b", "events 3 of 2"),
    ("-c x start -", "-c x start -"),
    ("-c  snapshot-parent  x", "-c  snapshot-parent  x"),
];

#[test]
fn each_command_is_taken(rt: HostRuntime) -> Result<(), Fail> {
    for line in COMMANDS {
        taken(&rt, rt.alloc(), line, line)?;
    }
    for (line, wanted) in OTHERS {
        taken(&rt, rt.alloc(), line, wanted)?;
    }
    Ok(())
}

const REFUSED: [(&str, u64); 44] = [
    ("", 0),
    ("-c", 1),
    ("-c x", 2),
    ("-c --x list", 1),
    ("-c x -c x list", 2),
    ("list -c x", 1),
    ("lists", 0),
    ("List", 0),
    ("--help", 0),
    ("--all list", 0),
    ("list a", 1),
    ("list --all a", 2),
    ("list --all --all", 2),
    ("list --disable", 1),
    ("list --all=yes", 1),
    ("list --", 1),
    ("list --al", 1),
    ("start", 1),
    ("start a b", 2),
    ("start --all a", 1),
    ("start a --disable", 2),
    ("autostart --disable", 2),
    ("autostart --disable --disable a", 2),
    ("autostart --disable a --disable", 3),
    ("dumpxml a --inactive b", 3),
    ("save a", 2),
    ("save --verbose a", 3),
    ("save a i --children", 3),
    ("restore i --verbose", 2),
    ("snapshot-delete a --children", 3),
    ("snapshot-list a --children", 2),
    ("setvcpus a", 2),
    ("setvcpus a 01", 2),
    ("setvcpus a 1234567890", 2),
    ("setvcpus a +1", 2),
    ("setvcpus a -1", 2),
    ("setvcpus a ", 2),
    ("setvcpus a 1x", 2),
    ("setvcpus a 1 2", 3),
    ("setmem a 10000000000000000000", 2),
    ("setmem a 00", 2),
    ("events 1", 2),
    ("events 1 x", 3),
    ("events 1 x a x", 5),
];

#[test]
fn other_words_have_their_place(rt: HostRuntime) -> Result<(), Fail> {
    for (line, at) in REFUSED {
        refused(&rt, rt.alloc(), line, at)?;
    }
    let shown = format!(in rt.alloc(); "{}", WordFault { at: 1 })?;
    assert_eq!(rt; shown.as_str(), "word 1 fits no command");
    Ok(())
}
