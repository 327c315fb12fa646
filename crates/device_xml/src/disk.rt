// What a disk's element says.
ghost use Rattle.std.specs.Prelude.{◌≡◌, [], IfOk, is_some, option_map, option_and_then, unwrap_or};
ghost use Rattle.text_spec.specs.DeviceText as spec;
ghost use Rattle.text_spec.specs.Look.{attribute_of as spec_attribute_of, first_of as spec_first_of};
ghost use Rattle.text_spec.specs.Tree.{seen};
ghost use Rattle.text_spec.specs.Words as words;
ghost use Rattle.types_base.specs.declared.device_def.DiskDevice.TheVariants as disk_device;
ghost use Rattle.types_base.specs.declared.device_def.DiskType.TheVariants as disk_type;

use std::alloc::Global;
use text_spec::{AttributeName, ElementName, Place, Source, Tree};
use types_base::{
    Disk, DiskDevice, DiskDriver, DiskSource, DiskTarget, DiskType, NoMemory, Text, TryCopy, both,
};
use xml_tables::{attribute_of, copied_attribute, copied_value, first_of, value_at};
use xml_words::{disk_device_of, disk_type_of};

fn type_of(tree: &Tree) -> DiskType
    ensures { result ≡ unwrap_or (option_and_then words.disk_type_of
        (spec_attribute_of AttributeName.Type (seen tree.now))) disk_type.File }
{
    match attribute_of(AttributeName::Type, tree) {
        Some(word) => disk_type_of(word.as_str()).unwrap_or(DiskType::File),
        None => DiskType::File,
    }
}

fn device_of(tree: &Tree) -> DiskDevice
    ensures { result ≡ unwrap_or (option_and_then words.disk_device_of
        (spec_attribute_of AttributeName.Device (seen tree.now))) disk_device.Disk }
{
    match attribute_of(AttributeName::Device, tree) {
        Some(word) => disk_device_of(word.as_str()).unwrap_or(DiskDevice::Disk),
        None => DiskDevice::Disk,
    }
}

fn driver_of(tree: &Tree) -> Result<DiskDriver, NoMemory>
    ensures { IfOk result (λ d. d ≡ spec.driver_of (seen tree.now)) }
{
    let (name, kind) = both(
        copied_attribute(AttributeName::Name, tree),
        copied_attribute(AttributeName::Type, tree),
    )?;
    Ok(DiskDriver { name, kind })
}

fn driver_in(tree: &Tree) -> Result<Option<DiskDriver>, NoMemory>
    ensures { IfOk result (λ d. d
        ≡ option_map spec.driver_of (spec_first_of ElementName.Driver (seen tree.now))) }
{
    match first_of(ElementName::Driver, tree) {
        Some(driver) => Ok(Some(driver_of(driver)?)),
        None => Ok(None),
    }
}

fn source_of(tree: &Tree) -> Result<DiskSource, NoMemory>
    ensures { IfOk result (λ s. s ≡ spec.disk_source_of (seen tree.now)) }
{
    let ((file, dev), (pool, volume)) = both(
        both(
            copied_attribute(AttributeName::File, tree),
            copied_attribute(AttributeName::Dev, tree),
        ),
        both(
            copied_attribute(AttributeName::Pool, tree),
            copied_attribute(AttributeName::Volume, tree),
        ),
    )?;
    Ok(DiskSource {
        file,
        dev,
        pool,
        volume,
    })
}

fn source_in(tree: &Tree) -> Result<Option<DiskSource>, NoMemory>
    ensures { IfOk result (λ s. s
        ≡ option_map spec.disk_source_of (spec_first_of ElementName.Source (seen tree.now))) }
{
    match first_of(ElementName::Source, tree) {
        Some(source) => Ok(Some(source_of(source)?)),
        None => Ok(None),
    }
}

const TARGET: Place = Place::Child(ElementName::Target);

/// By what a disk is distinguished.
pub(crate) fn target_dev(tree: &Tree) -> Option<&Text>
    ensures { option_map (λ t. t.now) result ≡ spec.target_dev (seen tree.now) }
{
    value_at(TARGET, Source::Attribute(AttributeName::Dev), tree)
}

fn dev_of(alloc: Global, tree: &Tree) -> Result<Text, NoMemory>
    ensures { IfOk result (λ t. t ≡ unwrap_or (spec.target_dev (seen tree.now)) []) }
{
    match target_dev(tree) {
        Some(dev) => Ok(dev.copy()?),
        None => Ok(Text::of(String::new(alloc))),
    }
}

fn target_of(alloc: Global, tree: &Tree) -> Result<DiskTarget, NoMemory>
    ensures { IfOk result (λ t. t ≡ spec.target_of (seen tree.now)) }
{
    let (dev, bus) = both(
        dev_of(alloc, tree),
        copied_value(TARGET, Source::Attribute(AttributeName::Bus), tree),
    )?;
    Ok(DiskTarget { dev, bus })
}

fn is_readonly(tree: &Tree) -> bool
    ensures { result ≡ is_some (spec_first_of ElementName.Readonly (seen tree.now)) }
{
    first_of(ElementName::Readonly, tree).is_some()
}

/// The disk that an element is, where it has no fault by its table.
#[tactic(auto, unfolding(text_spec::specs::DeviceText::disk_of))]
pub fn disk_of(alloc: Global, tree: &Tree) -> Result<Disk, NoMemory>
    ensures { IfOk result (λ d. d ≡ spec.disk_of (seen tree.now)) }
{
    let ((driver, source), target) = both(
        both(driver_in(tree), source_in(tree)),
        target_of(alloc, tree),
    )?;
    Ok(Disk {
        kind: type_of(tree),
        device: device_of(tree),
        driver,
        source,
        target,
        readonly: is_readonly(tree),
    })
}
