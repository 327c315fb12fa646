// Reading a domain's definition.
ghost use Rattle.std.specs.Prelude.{◌≡◌, ◌+◌, ◌≤◌, true, Ok, IfOk, length, filter, map, nat_lt, option_map};
ghost use Rattle.text_spec.specs.Definition.{domain_read};
ghost use Rattle.text_spec.specs.DomainPrinted.{domain_fits as spec_domain_fits};
ghost use Rattle.text_spec.specs.DomainText as spec;
ghost use Rattle.text_spec.specs.DomainValue.{domain_of as spec_domain_of};
ghost use Rattle.text_spec.specs.Look.{all_of, is_element as is_named};
ghost use Rattle.text_spec.specs.Tests.{Tests};
ghost use Rattle.text_spec.specs.Tree as spec_tree;
ghost use Rattle.text_spec.specs.Tree.{seen};
ghost use Rattle.types_base.specs.Memory.{UnlessNoMemory};
ghost use Rattle.types_base.specs.declared.domain_def.DomainDef.{DomainDef};
ghost use Rattle.domain_xml.specs.Parts as parts;

use crate::devices::{Devices, devices_in};
use crate::head::{Head, domain_type_in, head_in, uuid_in};
use crate::os::os_in;
use crate::resources::{
    crash_in, current_memory_of, current_vcpus_of, lifecycle_in, memory_of, vcpus_of,
};
use crate::table::rows;
use device_xml::{devices_test, domain_fits};
use std::alloc::Global;
use text_spec::{DefFault, DefKind, DeviceKind, ElementName, MOST_DEVICES, Place, Tree};
use types_base::{DomainDef, LifecycleAction, NoMemory, OrNoMemory, Os, both};
use xml_tables::{fault_at, fault_of_root, first_of, is_element, rows_test};

/// Tests the devices of a kind in the element `devices`, if there is one.
#[tactic(auto, unfolding(text_spec::specs::DeviceList::devices_fault))]
fn kind_test(
    alloc: Global,
    kind: DeviceKind,
    names: &[ElementName],
    devices: Option<&Tree>,
) -> Result<(), OrNoMemory<DefFault>>
    ensures { Tests result
        (parts.kind_fault kind names.now (option_map (λ t. seen t.now) devices.entry)) }
{
    match devices {
        Some(devices) => devices_test(alloc, kind, names, devices),
        None => Ok(()),
    }
}

fn count_among(name: ElementName, trees: &[Tree]) -> usize
    ensures count { result ≡ length (filter (is_named name) (map seen trees.now)) }
    ensures within { result ≤ length trees.now }
{
    let mut count = 0;
    let mut rest = trees;
    while let Some((tree, after)) = rest.split_first() {
        if is_element(name, tree) {
            count += 1;
        }
        rest = after;
    }
    count
}

#[tactic(auto, using(text_spec::proofs::Seen::children_seen), unfolding(text_spec::specs::Look::all_of))]
fn count_of(name: ElementName, tree: &Tree) -> usize
    ensures { result ≡ length (all_of name (seen tree.now)) }
{
    count_among(name, tree.children.as_slice())
}

fn count_in(name: ElementName, devices: Option<&Tree>) -> usize
    ensures { result ≡ length (parts.all_in name (option_map (λ t. seen t.now) devices.entry)) }
{
    match devices {
        Some(devices) => count_of(name, devices),
        None => 0,
    }
}

fn is_many(disks: usize, interfaces: usize) -> bool
    ensures { result ≡ nat_lt spec.most_devices (disks + interfaces) }
{
    disks > MOST_DEVICES || interfaces > MOST_DEVICES - disks
}

fn many_test(alloc: Global, devices: Option<&Tree>) -> Result<(), OrNoMemory<DefFault>>
    ensures { Tests result (parts.many_fault (option_map (λ t. seen t.now) devices.entry)) }
{
    let disks = count_in(ElementName::Disk, devices);
    let interfaces = count_in(ElementName::Interface, devices);
    if is_many(disks, interfaces) {
        let names = [ElementName::Domain, ElementName::Devices];
        let fault = fault_at(alloc, &names, Place::Here, DefKind::Many)?;
        return Err(OrNoMemory::Fault(fault));
    }
    Ok(())
}

fn all_devices_test(alloc: Global, devices: Option<&Tree>) -> Result<(), OrNoMemory<DefFault>>
    ensures { Tests result
        (parts.all_devices_fault (option_map (λ t. seen t.now) devices.entry)) }
{
    let disks = [ElementName::Domain, ElementName::Devices, ElementName::Disk];
    let interfaces = [
        ElementName::Domain,
        ElementName::Devices,
        ElementName::Interface,
    ];
    kind_test(alloc, DeviceKind::Disk, &disks, devices)?;
    kind_test(alloc, DeviceKind::Interface, &interfaces, devices)?;
    many_test(alloc, devices)
}

/// Tests a domain's element: its rows, its disks, its interfaces, and how many they are.
#[tactic(auto, unfolding(text_spec::specs::DomainText::domain_fault))]
fn domain_test(alloc: Global, tree: &Tree) -> Result<(), OrNoMemory<DefFault>>
    ensures { Tests result (spec.domain_fault (seen tree.now)) }
{
    rows_test(alloc, &[ElementName::Domain], rows(), tree)?;
    all_devices_test(alloc, first_of(ElementName::Devices, tree))
}

fn put_together(tree: &Tree, head: Head, os: Os, devices: Devices) -> DomainDef
    ensures { result ≡ parts.put_together (seen tree.now) head os devices }
{
    DomainDef {
        kind: domain_type_in(tree),
        name: head.name,
        uuid: uuid_in(tree),
        title: head.title,
        description: head.description,
        guest: head.guest,
        memory: memory_of(tree),
        current_memory: current_memory_of(tree),
        vcpus: vcpus_of(tree),
        current_vcpus: current_vcpus_of(tree),
        os,
        on_poweroff: lifecycle_in(ElementName::OnPoweroff, LifecycleAction::Destroy, tree),
        on_reboot: lifecycle_in(ElementName::OnReboot, LifecycleAction::Restart, tree),
        on_crash: crash_in(tree),
        emulator: devices.emulator,
        disks: devices.disks,
        interfaces: devices.interfaces,
        serials: devices.serials,
        consoles: devices.consoles,
        graphics: devices.graphics,
        memballoon: devices.memballoon,
    }
}

/// The definition that an element without a fault is.
#[tactic(auto, using(crate::proofs::Together::together))]
fn domain_of(alloc: Global, tree: &Tree) -> Result<DomainDef, NoMemory>
    ensures { IfOk result (λ d. d ≡ spec_domain_of (seen tree.now)) }
{
    let ((head, os), devices) = both(
        both(head_in(alloc, tree), os_in(alloc, tree)),
        devices_in(alloc, tree),
    )?;
    Ok(put_together(tree, head, os, devices))
}

/// The definition that a tree is by the table, whatever the length of its own text.
#[tactic(auto, unfolding(text_spec::specs::DomainText::domain_in))]
fn read_by_table(alloc: Global, tree: &Tree) -> Result<DomainDef, OrNoMemory<DefFault>>
    ensures { UnlessNoMemory result (spec.domain_in (seen tree.now)) }
{
    if !is_element(ElementName::Domain, tree) {
        let fault = fault_of_root(alloc, DefKind::Root, tree)?;
        return Err(OrNoMemory::Fault(fault));
    }
    domain_test(alloc, tree)?;
    Ok(domain_of(alloc, tree)?)
}

/// The definition that a tree is by the table of domains.
///
/// The fault is the first one in the order of the table: another root element, a needed element or
/// attribute that is absent, a value that is not allowed there, a number outside its range, the key
/// of an earlier device, more than 30 disks and interfaces. It is `TooLong`, with the root's path,
/// where the definition's own text, once it is filled in, would pass the limits of a text.
///
/// What is read of the tree of a whole text is sound (`text_laws::read_domain_is_sound`), so that it
/// reads back from the text that is printed of it, filled in or not.
#[tactic(auto, unfolding(text_spec::specs::Definition::domain_read))]
pub fn read(alloc: Global, tree: &Tree) -> Result<DomainDef, OrNoMemory<DefFault>>
    ensures { UnlessNoMemory result (domain_read (seen tree.now)) }
{
    let def = match read_by_table(alloc, tree) {
        Ok(def) => def,
        Err(fault) => return Err(fault),
    };
    if domain_fits(alloc, &def)? {
        return Ok(def);
    }
    let fault = fault_of_root(alloc, DefKind::TooLong, tree)?;
    Err(OrNoMemory::Fault(fault))
}

/// What is read of a tree has a text, once it is filled in, that is within the limits of a text.
#[tactic(auto, using(crate::proofs::Fitting::read_fitting))]
pub fn what_is_read_fits()
    ensures { (t : spec_tree.Tree) → (d : DomainDef) → domain_read t ≡ Ok d
        → spec_domain_fits d ≡ true }
{}
