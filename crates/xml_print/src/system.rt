// Memory, processors and the system of a domain, and what follows when it goes down.
ghost use Rattle.std.specs.Prelude.{◌≡◌, ◌++◌, ◌∷◌, [], IfOk, OnOk, map};
ghost use Rattle.text_spec.specs.DomainPrinted as spec;
ghost use Rattle.text_spec.specs.Spelling.{worded as worded_tree};
ghost use Rattle.text_spec.specs.Tree.{seen};

use crate::attributes::{one, two_present};
use crate::elements::{add, holding, worded};
use std::alloc::Global;
use text_spec::{AttributeName, ElementName, PairList, Tree};
use virt_types::{BootDevice, DomainDef, NoMemory, Os};
use xml_tables::{boot_device_word, crash_action_word, lifecycle_action_word};

fn memory_tree(alloc: Global, name: ElementName, kibibytes: u64) -> Result<Tree, NoMemory>
    ensures { IfOk result (λ t. seen t ≡ spec.memory_tree name kibibytes) }
{
    let text = format!(in alloc; "{kibibytes}")?;
    let unit = one(alloc, AttributeName::Unit, "KiB")?;
    worded(alloc, name, unit, text.as_str())
}

fn current_attribute(alloc: Global, most: u32, current: u32) -> Result<PairList, NoMemory>
    ensures { IfOk result (λ ps. ps ≡ spec.current_attribute most current) }
{
    if current < most {
        let text = format!(in alloc; "{current}")?;
        one(alloc, AttributeName::Current, text.as_str())
    } else {
        Ok(PairList::new(alloc))
    }
}

fn vcpu_tree(alloc: Global, most: u32, current: u32) -> Result<Tree, NoMemory>
    ensures { IfOk result (λ t. seen t ≡ spec.vcpu_tree most current) }
{
    let text = format!(in alloc; "{most}")?;
    let attributes = current_attribute(alloc, most, current)?;
    worded(alloc, ElementName::Vcpu, attributes, text.as_str())
}

fn boot_tree(alloc: Global, device: BootDevice) -> Result<Tree, NoMemory>
    ensures { IfOk result (λ t. seen t ≡ spec.boot_tree device) }
{
    let attributes = one(alloc, AttributeName::Dev, boot_device_word(device))?;
    worded(alloc, ElementName::Boot, attributes, "")
}

fn add_boot(alloc: Global, out: &mut Vec<Tree>, devices: &[BootDevice]) -> Result<(), NoMemory>
    ensures { OnOk result (map seen out.new.items ≡ map seen out.old.items
        ++ map spec.boot_tree devices.now) }
{
    let mut rest = devices;
    while let Some((device, following)) = rest.split_first() {
        add(out, boot_tree(alloc, *device)?)?;
        rest = following;
    }
    Ok(())
}

fn os_type_tree(alloc: Global, os: &Os) -> Result<Tree, NoMemory>
    ensures { IfOk result (λ t. seen t ≡ spec.os_type_tree os.now) }
{
    let attributes = two_present(
        alloc,
        AttributeName::Arch,
        &os.arch,
        AttributeName::Machine,
        &os.machine,
    )?;
    worded(alloc, ElementName::Type, attributes, os.kind.as_str())
}

#[tactic(auto, unfolding(text_spec::specs::DomainPrinted::os_tree))]
fn os_tree(alloc: Global, os: &Os) -> Result<Tree, NoMemory>
    ensures { IfOk result (λ t. seen t ≡ spec.os_tree os.now) }
{
    let mut children = Vec::new(alloc);
    add(&mut children, os_type_tree(alloc, os)?)?;
    add_boot(alloc, &mut children, os.boot.as_slice())?;
    holding(alloc, ElementName::Os, PairList::new(alloc), children)
}

fn add_word(
    alloc: Global,
    out: &mut Vec<Tree>,
    name: ElementName,
    word: &str,
) -> Result<(), NoMemory>
    ensures { OnOk result (map seen out.new.items ≡ map seen out.old.items
        ++ worded_tree name [] word.now ∷ []) }
{
    add(out, worded(alloc, name, PairList::new(alloc), word)?)
}

/// Adds memory and processors.
fn add_sizes(alloc: Global, out: &mut Vec<Tree>, def: &DomainDef) -> Result<(), NoMemory>
    ensures { OnOk result (map seen out.new.items ≡ map seen out.old.items
        ++ spec.size_trees def.now) }
{
    add(out, memory_tree(alloc, ElementName::Memory, def.memory)?)?;
    add(
        out,
        memory_tree(alloc, ElementName::CurrentMemory, def.current_memory)?,
    )?;
    add(out, vcpu_tree(alloc, def.vcpus, def.current_vcpus)?)
}

/// Adds what follows when the guest goes down.
fn add_actions(alloc: Global, out: &mut Vec<Tree>, def: &DomainDef) -> Result<(), NoMemory>
    ensures { OnOk result (map seen out.new.items ≡ map seen out.old.items
        ++ spec.action_trees def.now) }
{
    add_word(
        alloc,
        out,
        ElementName::OnPoweroff,
        lifecycle_action_word(def.on_poweroff),
    )?;
    add_word(
        alloc,
        out,
        ElementName::OnReboot,
        lifecycle_action_word(def.on_reboot),
    )?;
    add_word(
        alloc,
        out,
        ElementName::OnCrash,
        crash_action_word(def.on_crash),
    )
}

/// Adds the elements from memory on to the devices.
#[tactic(auto, unfolding(text_spec::specs::DomainPrinted::middle_trees))]
pub(crate) fn add_middle(
    alloc: Global,
    out: &mut Vec<Tree>,
    def: &DomainDef,
) -> Result<(), NoMemory>
    ensures { OnOk result (map seen out.new.items ≡ map seen out.old.items
        ++ spec.middle_trees def.now) }
{
    add_sizes(alloc, out, def)?;
    add(out, os_tree(alloc, &def.os)?)?;
    add_actions(alloc, out, def)
}
