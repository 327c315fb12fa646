// What is in the element `devices`.
ghost use Rattle.std.specs.Prelude.{◌≡◌, IfOk, map, option_map};
ghost use Rattle.text_spec.specs.DeviceText as device;
ghost use Rattle.text_spec.specs.DomainValue as spec;
ghost use Rattle.text_spec.specs.Look.{all_of, first_of as spec_first_of, value_in as spec_value_in};
ghost use Rattle.text_spec.specs.Tree.{seen};
ghost use Rattle.domain_xml.specs.Parts as parts;

use crate::lists::{
    characters_among, disks_among, graphics_among, interfaces_among, memballoon_of,
};
use std::alloc::Global;
use text_spec::{ElementName, Place, Source, Tree};
use types_base::{
    CharacterDeviceList, DiskList, GraphicsList, InterfaceList, Memballoon, NoMemory, Text, both,
};
use xml_tables::{copied_value, first_of};

/// The devices of a domain.
#[derive(Drop)]
pub(crate) struct Devices {
    pub(crate) emulator: Option<Text>,
    pub(crate) disks: DiskList,
    pub(crate) interfaces: InterfaceList,
    pub(crate) serials: CharacterDeviceList,
    pub(crate) consoles: CharacterDeviceList,
    pub(crate) graphics: GraphicsList,
    pub(crate) memballoon: Option<Memballoon>,
}

#[tactic(auto, using(text_spec::proofs::Seen::children_seen), unfolding(text_spec::specs::Look::all_of))]
fn disks_of(alloc: Global, tree: &Tree) -> Result<DiskList, NoMemory>
    ensures { IfOk result (λ found. found
        ≡ map device.disk_of (all_of ElementName.Disk (seen tree.now))) }
{
    Ok(DiskList::of(disks_among(alloc, tree.children.as_slice())?))
}

#[tactic(auto, using(text_spec::proofs::Seen::children_seen), unfolding(text_spec::specs::Look::all_of))]
fn interfaces_of(alloc: Global, tree: &Tree) -> Result<InterfaceList, NoMemory>
    ensures { IfOk result (λ found. found
        ≡ map device.interface_of (all_of ElementName.Interface (seen tree.now))) }
{
    Ok(InterfaceList::of(interfaces_among(alloc, tree.children.as_slice())?))
}

#[tactic(auto, using(text_spec::proofs::Seen::children_seen), unfolding(text_spec::specs::Look::all_of))]
fn characters_of(
    alloc: Global,
    name: ElementName,
    tree: &Tree,
) -> Result<CharacterDeviceList, NoMemory>
    ensures { IfOk result (λ found. found
        ≡ map spec.character_device_of (all_of name (seen tree.now))) }
{
    let found = characters_among(alloc, name, tree.children.as_slice())?;
    Ok(CharacterDeviceList::of(found))
}

#[tactic(auto, using(text_spec::proofs::Seen::children_seen), unfolding(text_spec::specs::Look::all_of))]
fn graphics_of(alloc: Global, tree: &Tree) -> Result<GraphicsList, NoMemory>
    ensures { IfOk result (λ found. found
        ≡ map spec.graphics_of (all_of ElementName.Graphics (seen tree.now))) }
{
    Ok(GraphicsList::of(graphics_among(alloc, tree.children.as_slice())?))
}

fn memballoon_in(tree: &Tree) -> Result<Option<Memballoon>, NoMemory>
    ensures { IfOk result (λ m. m ≡ option_map spec.memballoon_of
        (spec_first_of ElementName.Memballoon (seen tree.now))) }
{
    match first_of(ElementName::Memballoon, tree) {
        Some(memballoon) => Ok(Some(memballoon_of(memballoon)?)),
        None => Ok(None),
    }
}

fn emulator_in(tree: &Tree) -> Result<Option<Text>, NoMemory>
    ensures { IfOk result (λ t. t ≡ parts.child_text ElementName.Emulator (seen tree.now)) }
{
    copied_value(Place::Child(ElementName::Emulator), Source::Text, tree)
}

/// What an element `devices` says.
#[tactic(auto, unfolding(crate::specs::Parts::devices_of))]
fn devices_of(alloc: Global, tree: &Tree) -> Result<Devices, NoMemory>
    ensures { IfOk result (λ d. d ≡ parts.devices_of (seen tree.now)) }
{
    let ((emulator, memballoon), graphics) = both(
        both(emulator_in(tree), memballoon_in(tree)),
        graphics_of(alloc, tree),
    )?;
    let ((disks, interfaces), (serials, consoles)) = both(
        both(disks_of(alloc, tree), interfaces_of(alloc, tree)),
        both(
            characters_of(alloc, ElementName::Serial, tree),
            characters_of(alloc, ElementName::Console, tree),
        ),
    )?;
    Ok(Devices {
        emulator,
        disks,
        interfaces,
        serials,
        consoles,
        graphics,
        memballoon,
    })
}

fn no_devices(alloc: Global) -> Devices
    ensures { result ≡ parts.no_devices }
{
    Devices {
        emulator: None,
        disks: DiskList::new(alloc),
        interfaces: InterfaceList::new(alloc),
        serials: CharacterDeviceList::new(alloc),
        consoles: CharacterDeviceList::new(alloc),
        graphics: GraphicsList::new(alloc),
        memballoon: None,
    }
}

/// The devices of a domain.
#[tactic(auto, unfolding(crate::specs::Parts::devices_in))]
pub(crate) fn devices_in(alloc: Global, tree: &Tree) -> Result<Devices, NoMemory>
    ensures { IfOk result (λ d. d ≡ parts.devices_in
        (spec_first_of ElementName.Devices (seen tree.now))) }
{
    match first_of(ElementName::Devices, tree) {
        Some(devices) => devices_of(alloc, devices),
        None => Ok(no_devices(alloc)),
    }
}
