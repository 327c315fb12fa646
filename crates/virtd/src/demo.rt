// The one domain of `virtd demo`.
ghost use Rattle.std.specs.Prelude.{◌≡◌, codes, IfOk, Ok};
ghost use Rattle.session_spec.specs.DefinitionText.{definition_in, text_of};
ghost use Rattle.virtd.specs.Demo.{demo_def, demo_requests, demo_uuid};

use def_keeper::Opening;
use std::alloc::Global;
use text_laws::printed_domain_reads_back;
use virt_types::{
    CrashAction, DomainDef, DomainType, LifecycleAction, ListOf, Name, NoMemory, OrNoMemory, Os,
    Request, RequestList, Script, Text, Uuid,
};
use xml_print::print_domain;

/// 00000000-0000-4000-8000-000000000001
const UUID: [u8; 16] = [0, 0, 0, 0, 0, 0, 0x40, 0, 0x80, 0, 0, 0, 0, 0, 0, 1];

/// Its memory, in KiB.
const MEMORY: u64 = 1_048_576;

fn demo_name(alloc: Global) -> Result<Name, NoMemory>
    ensures { IfOk result (λ name. name ≡ codes "demo") }
{
    match Name::read(alloc, "demo".as_bytes()) {
        Ok(name) => Ok(name),
        Err(OrNoMemory::NoMemory) => Err(NoMemory),
        Err(OrNoMemory::Fault(_)) => unreachable!(),
    }
}

fn demo_uuid_bytes() -> Uuid
    ensures { result ≡ demo_uuid }
{
    Uuid::from_bytes(UUID)
}

/// The definition of `demo`, which has no devices.
#[tactic(auto, unfolding(crate::specs::Demo::demo_def))]
fn define_demo(alloc: Global, name: Name, system: Text, script: Text) -> DomainDef
    requires name { name ≡ codes "demo" }
    requires system { system ≡ codes "hvm" }
    requires script { script ≡ codes "" }
    ensures { result ≡ demo_def }
{
    DomainDef {
        kind: DomainType::Qemu,
        name,
        uuid: Some(demo_uuid_bytes()),
        title: None,
        description: None,
        guest: Script {
            text: script,
            entries: ListOf::new(alloc),
        },
        memory: MEMORY,
        current_memory: MEMORY,
        vcpus: 1,
        current_vcpus: 1,
        os: Os {
            kind: system,
            arch: None,
            machine: None,
            boot: ListOf::new(alloc),
        },
        on_poweroff: LifecycleAction::Destroy,
        on_reboot: LifecycleAction::Restart,
        on_crash: CrashAction::Destroy,
        emulator: None,
        disks: ListOf::new(alloc),
        interfaces: ListOf::new(alloc),
        serials: ListOf::new(alloc),
        consoles: ListOf::new(alloc),
        graphics: ListOf::new(alloc),
        memballoon: None,
    }
}

// The text of that definition reads as that very domain.
fn demo_reads_back()
    ensures { definition_in (text_of demo_def) ≡ Ok demo_def }
{
    printed_domain_reads_back();
}

/// The request that defines the domain `demo`.
pub(crate) fn define_request(alloc: Global) -> Result<RequestList, NoMemory>
    ensures { IfOk result (λ requests. requests ≡ demo_requests) }
{
    demo_reads_back();
    let name = demo_name(alloc)?;
    let system = Text::copy_of(alloc, "hvm")?;
    let script = Text::copy_of(alloc, "")?;
    let def = define_demo(alloc, name, system, script);
    let xml = print_domain(alloc, &def)?;
    let mut requests = ListOf::new(alloc);
    requests.push(Request::DomainDefineXml { xml })?;
    Ok(requests)
}

/// What is taken for true of a store in memory: all that it promises.
pub(crate) struct InMemory;

impl Opening for InMemory {
    ghost sound = { Unit {0} };
}
