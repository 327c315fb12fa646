// The elements in a device's.
ghost use Rattle.std.specs.Prelude.{◌≡◌, ◌++◌, OnOk, IfOk, map};
ghost use Rattle.text_spec.specs.DevicePrinted as spec;
ghost use Rattle.text_spec.specs.Spelling.{present, flagged};
ghost use Rattle.text_spec.specs.Tree.{seen};
ghost use Rattle.text_spec.specs.declared.vocabulary.ElementName.TheVariants as element;

use crate::attributes::{one, one_present, push_present, two_present};
use crate::elements::{add, tagged};
use std::alloc::Global;
use text_spec::{AttributeName, ElementName, PairList, Tree};
use virt_types::{
    DiskDriver, DiskSource, DiskTarget, InterfaceModel, InterfaceSource, Mac, NoMemory,
};
use xml_tables::mac_text;

fn driver_tree(alloc: Global, driver: &DiskDriver) -> Result<Tree, NoMemory>
    ensures { IfOk result (λ t. seen t ≡ spec.driver_tree driver.now) }
{
    let attributes = two_present(
        alloc,
        AttributeName::Name,
        &driver.name,
        AttributeName::Type,
        &driver.kind,
    )?;
    tagged(alloc, ElementName::Driver, attributes)
}

fn disk_source_tree(alloc: Global, source: &DiskSource) -> Result<Tree, NoMemory>
    ensures { IfOk result (λ t. seen t ≡ spec.disk_source_tree source.now) }
{
    let mut attributes = PairList::new(alloc);
    push_present(alloc, &mut attributes, AttributeName::File, &source.file)?;
    push_present(alloc, &mut attributes, AttributeName::Dev, &source.dev)?;
    push_present(alloc, &mut attributes, AttributeName::Pool, &source.pool)?;
    push_present(
        alloc,
        &mut attributes,
        AttributeName::Volume,
        &source.volume,
    )?;
    tagged(alloc, ElementName::Source, attributes)
}

pub(crate) fn target_tree(alloc: Global, target: &DiskTarget) -> Result<Tree, NoMemory>
    ensures { IfOk result (λ t. seen t ≡ spec.target_tree target.now) }
{
    let mut attributes = one(alloc, AttributeName::Dev, target.dev.as_str())?;
    push_present(alloc, &mut attributes, AttributeName::Bus, &target.bus)?;
    tagged(alloc, ElementName::Target, attributes)
}

fn mac_tree(alloc: Global, mac: Mac) -> Result<Tree, NoMemory>
    ensures { IfOk result (λ t. seen t ≡ spec.mac_tree mac) }
{
    let text = mac_text(alloc, mac)?;
    let attributes = one(alloc, AttributeName::Address, text.as_str())?;
    tagged(alloc, ElementName::Mac, attributes)
}

fn interface_source_tree(alloc: Global, source: &InterfaceSource) -> Result<Tree, NoMemory>
    ensures { IfOk result (λ t. seen t ≡ spec.interface_source_tree source.now) }
{
    let attributes = two_present(
        alloc,
        AttributeName::Network,
        &source.network,
        AttributeName::Bridge,
        &source.bridge,
    )?;
    tagged(alloc, ElementName::Source, attributes)
}

fn interface_model_tree(alloc: Global, model: &InterfaceModel) -> Result<Tree, NoMemory>
    ensures { IfOk result (λ t. seen t ≡ spec.interface_model_tree model.now) }
{
    let attributes = one_present(alloc, AttributeName::Type, &model.kind)?;
    tagged(alloc, ElementName::Model, attributes)
}

/// Adds the driver of a disk that has one.
pub(crate) fn add_driver(
    alloc: Global,
    out: &mut Vec<Tree>,
    driver: &Option<DiskDriver>,
) -> Result<(), NoMemory>
    ensures { OnOk result (map seen out.new.items ≡ map seen out.old.items
        ++ present spec.driver_tree driver.now) }
{
    match driver {
        Some(driver) => add(out, driver_tree(alloc, driver)?),
        None => Ok(()),
    }
}

/// Adds the source of a disk that has one.
pub(crate) fn add_disk_source(
    alloc: Global,
    out: &mut Vec<Tree>,
    source: &Option<DiskSource>,
) -> Result<(), NoMemory>
    ensures { OnOk result (map seen out.new.items ≡ map seen out.old.items
        ++ present spec.disk_source_tree source.now) }
{
    match source {
        Some(source) => add(out, disk_source_tree(alloc, source)?),
        None => Ok(()),
    }
}

/// Adds the mark of a disk that is only read.
pub(crate) fn add_readonly(
    alloc: Global,
    out: &mut Vec<Tree>,
    readonly: bool,
) -> Result<(), NoMemory>
    ensures { OnOk result (map seen out.new.items ≡ map seen out.old.items
        ++ flagged element.Readonly readonly) }
{
    if readonly {
        add(
            out,
            tagged(alloc, ElementName::Readonly, PairList::new(alloc))?,
        )
    } else {
        Ok(())
    }
}

/// Adds the address of an interface that has one.
pub(crate) fn add_mac(alloc: Global, out: &mut Vec<Tree>, mac: Option<Mac>) -> Result<(), NoMemory>
    ensures { OnOk result (map seen out.new.items ≡ map seen out.old.items
        ++ present spec.mac_tree mac) }
{
    match mac {
        Some(mac) => add(out, mac_tree(alloc, mac)?),
        None => Ok(()),
    }
}

/// Adds the source of an interface that has one.
pub(crate) fn add_interface_source(
    alloc: Global,
    out: &mut Vec<Tree>,
    source: &Option<InterfaceSource>,
) -> Result<(), NoMemory>
    ensures { OnOk result (map seen out.new.items ≡ map seen out.old.items
        ++ present spec.interface_source_tree source.now) }
{
    match source {
        Some(source) => add(out, interface_source_tree(alloc, source)?),
        None => Ok(()),
    }
}

/// Adds the model of an interface that has one.
pub(crate) fn add_interface_model(
    alloc: Global,
    out: &mut Vec<Tree>,
    model: &Option<InterfaceModel>,
) -> Result<(), NoMemory>
    ensures { OnOk result (map seen out.new.items ≡ map seen out.old.items
        ++ present spec.interface_model_tree model.now) }
{
    match model {
        Some(model) => add(out, interface_model_tree(alloc, model)?),
        None => Ok(()),
    }
}
