// The parts of a link, used one after the other and by two threads at once.
use crate::link::SimGuests;
use monitor_link::{Ears, Guests, Heard, Killer, Link, Monitor};
use std::alloc::Global;
use std::test::Fail;
use std::thread;
use virt_types::{
    Answer, AnswerValue, Command, CrashAction, DomainDef, DomainType, EndReason, LifecycleAction,
    ListOf, Name, NoMemory, OrNoMemory, Os, Script, ScriptAct, ScriptEntry, Text,
};

const ENDS_AT_2: [ScriptEntry; 1] = [ScriptEntry::At {
    boot: 1,
    command: 2,
    act: ScriptAct::End,
}];

// A definition whose guest ends of itself at the second command of its first boot.
fn definition(alloc: Global) -> Result<DomainDef, NoMemory> {
    Ok(DomainDef {
        kind: DomainType::Kvm,
        name: name(alloc)?,
        uuid: None,
        title: None,
        description: None,
        guest: Script {
            text: Text::copy_of(alloc, "")?,
            entries: ListOf::of(Vec::from_slice(alloc, &ENDS_AT_2)?),
        },
        memory: 2048,
        current_memory: 1024,
        vcpus: 1,
        current_vcpus: 1,
        os: Os {
            kind: Text::copy_of(alloc, "hvm")?,
            arch: None,
            machine: None,
            boot: ListOf::new(alloc),
        },
        on_poweroff: LifecycleAction::Destroy,
        on_reboot: LifecycleAction::Restart,
        on_crash: CrashAction::Destroy,
        emulator: None,
        disks: ListOf::new(alloc),
        interfaces: ListOf::new(alloc),
        serials: ListOf::new(alloc),
        consoles: ListOf::new(alloc),
        graphics: ListOf::new(alloc),
        memballoon: None,
    })
}

fn name(alloc: Global) -> Result<Name, NoMemory> {
    match Name::read(alloc, b"g") {
        Ok(name) => Ok(name),
        Err(OrNoMemory::Fault(_)) => Err(NoMemory),
        Err(OrNoMemory::NoMemory) => Err(NoMemory),
    }
}

fn is_done(answer: &Answer) -> bool {
    matches!(answer, Answer::Ok(AnswerValue::Nothing))
}

// Why the guest ended, where the answer says that it did.
fn ended(answer: &Answer) -> Option<EndReason> {
    match answer {
        Answer::Ended(reason) => Some(*reason),
        _ => None,
    }
}

#[test]
fn the_parts_of_a_link_share_one_guest(rt: HostRuntime) -> Result<(), Fail> {
    let def = definition(rt.alloc())?;
    let mut guests = SimGuests::new(&rt, rt.alloc());
    let Link {
        mut monitor,
        mut ears,
        mut killer,
    } = guests.another()?.make(&def, 1)?;
    assert!(rt; is_done(&monitor.ask(&Command::Cont)));
    assert_eq!(rt; ears.hear(), Heard::Quiet);
    assert_eq!(rt;
        ended(&monitor.ask(&Command::Cont)),
        Some(EndReason::Crashed)
    );
    drop(monitor);
    killer.kill();
    drop(killer);
    assert_eq!(rt; ears.hear(), Heard::Ended(EndReason::Crashed));
    let mut next = guests.make(&def, 2)?;
    assert!(rt; is_done(&next.monitor.ask(&Command::Cont)));
    assert!(rt; is_done(&next.monitor.ask(&Command::Cont)));
    Ok(())
}

#[test]
fn one_thread_asks_while_another_kills(rt: HostRuntime) -> Result<(), Fail> {
    let def = definition(rt.alloc())?;
    let Link {
        mut monitor,
        mut ears,
        mut killer,
    } = SimGuests::new(&rt, rt.alloc()).make(&def, 1)?;
    let (last, _) = thread::join(
        &rt,
        || {
            let _ = monitor.ask(&Command::Cont);
            ended(&monitor.ask(&Command::Cont))
        },
        || killer.kill(),
    );
    let heard = ears.hear();
    match last {
        Some(reason) => assert_eq!(rt; heard, Heard::Ended(reason)),
        None => assert!(rt; false, "the guest goes on"),
    }
    Ok(())
}
