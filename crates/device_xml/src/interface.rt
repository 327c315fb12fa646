// What an interface's element says.
ghost use Rattle.std.specs.Prelude.{◌≡◌, IfOk, option_map, option_and_then, unwrap_or};
ghost use Rattle.text_spec.specs.DeviceText as spec;
ghost use Rattle.text_spec.specs.Look.{attribute_of as spec_attribute_of, first_of as spec_first_of};
ghost use Rattle.text_spec.specs.Tree.{seen};
ghost use Rattle.text_spec.specs.Words as words;
ghost use Rattle.types_base.specs.declared.device_def.InterfaceType.TheVariants as interface_type;

use text_spec::{AttributeName, ElementName, Place, Source, Tree};
use types_base::{
    Interface, InterfaceModel, InterfaceSource, InterfaceType, Mac, NoMemory, Text, both,
};
use xml_tables::{attribute_of, copied_attribute, first_of, value_at};
use xml_words::{interface_type_of, mac_of};

// The type is needed, so this default is not used where the element has no fault.
fn type_of(tree: &Tree) -> InterfaceType
    ensures { result ≡ unwrap_or (option_and_then words.interface_type_of
        (spec_attribute_of AttributeName.Type (seen tree.now))) interface_type.Network }
{
    match attribute_of(AttributeName::Type, tree) {
        Some(word) => interface_type_of(word.as_str()).unwrap_or(InterfaceType::Network),
        None => InterfaceType::Network,
    }
}

/// By what an interface is distinguished.
pub(crate) fn mac_address(tree: &Tree) -> Option<&Text>
    ensures { option_map (λ t. t.now) result ≡ spec.mac_address (seen tree.now) }
{
    value_at(
        Place::Child(ElementName::Mac),
        Source::Attribute(AttributeName::Address),
        tree,
    )
}

fn mac_in(tree: &Tree) -> Option<Mac>
    ensures { result ≡ spec.mac_in (seen tree.now) }
{
    match mac_address(tree) {
        Some(address) => mac_of(address.as_bytes()),
        None => None,
    }
}

fn source_of(tree: &Tree) -> Result<InterfaceSource, NoMemory>
    ensures { IfOk result (λ s. s ≡ spec.interface_source_of (seen tree.now)) }
{
    let (network, bridge) = both(
        copied_attribute(AttributeName::Network, tree),
        copied_attribute(AttributeName::Bridge, tree),
    )?;
    Ok(InterfaceSource { network, bridge })
}

fn source_in(tree: &Tree) -> Result<Option<InterfaceSource>, NoMemory>
    ensures { IfOk result (λ s. s ≡ option_map spec.interface_source_of
        (spec_first_of ElementName.Source (seen tree.now))) }
{
    match first_of(ElementName::Source, tree) {
        Some(source) => Ok(Some(source_of(source)?)),
        None => Ok(None),
    }
}

fn model_of(tree: &Tree) -> Result<InterfaceModel, NoMemory>
    ensures { IfOk result (λ m. m ≡ spec.interface_model_of (seen tree.now)) }
{
    Ok(InterfaceModel {
        kind: copied_attribute(AttributeName::Type, tree)?,
    })
}

fn model_in(tree: &Tree) -> Result<Option<InterfaceModel>, NoMemory>
    ensures { IfOk result (λ m. m ≡ option_map spec.interface_model_of
        (spec_first_of ElementName.Model (seen tree.now))) }
{
    match first_of(ElementName::Model, tree) {
        Some(model) => Ok(Some(model_of(model)?)),
        None => Ok(None),
    }
}

/// The interface that an element is, where it has no fault by its table.
#[tactic(auto, unfolding(text_spec::specs::DeviceText::interface_of))]
pub fn interface_of(tree: &Tree) -> Result<Interface, NoMemory>
    ensures { IfOk result (λ i. i ≡ spec.interface_of (seen tree.now)) }
{
    let (source, model) = both(source_in(tree), model_in(tree))?;
    Ok(Interface {
        kind: type_of(tree),
        mac: mac_in(tree),
        source,
        model,
    })
}
