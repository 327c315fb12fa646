// What a domain is called, and the texts that come with it.
ghost use Rattle.std.specs.Prelude.{◌≡◌, [], IfOk, option_and_then, option_map, unwrap_or};
ghost use Rattle.text_spec.specs.DomainValue as spec;
ghost use Rattle.text_spec.specs.Tree.{seen};
ghost use Rattle.uuid.specs.Text.{parsed};
ghost use Rattle.domain_xml.specs.Parts as parts;

use std::alloc::Global;
use text_spec::{AttributeName, ElementName, Place, Source, Tree};
use types_base::{DomainType, Name, NoMemory, Script, ScriptEntryList, Text, TryCopy, both};
use uuid::Uuid;
use xml_tables::{attribute_of, copied_value, domain_type_of, entries_of, value_at};

/// What a domain is called, and what is written about it.
#[derive(Drop)]
pub(crate) struct Head {
    pub(crate) name: Name,
    pub(crate) title: Option<Text>,
    pub(crate) description: Option<Text>,
    pub(crate) guest: Script,
}

/// The text of an element in the domain's.
pub(crate) fn own_text(name: ElementName, tree: &Tree) -> Option<&Text>
    ensures { option_map (λ t. t.now) result ≡ spec.own_text name (seen tree.now) }
{
    value_at(Place::Child(name), Source::Text, tree)
}

// The type is needed, so this default is not used where the element has no fault.
#[tactic(auto, unfolding(text_spec::specs::DomainValue::domain_type_in))]
pub(crate) fn domain_type_in(tree: &Tree) -> DomainType
    ensures { result ≡ spec.domain_type_in (seen tree.now) }
{
    match attribute_of(AttributeName::Type, tree) {
        Some(word) => domain_type_of(word.as_str()).unwrap_or(DomainType::Kvm),
        None => DomainType::Kvm,
    }
}

// The name is needed, so it is there and is one where the element has no fault.
fn name_in(alloc: Global, tree: &Tree) -> Result<Name, NoMemory>
    ensures { IfOk result (λ n. n
        ≡ unwrap_or (spec.own_text ElementName.Name (seen tree.now)) []) }
{
    match own_text(ElementName::Name, tree) {
        Some(text) => match Name::read(alloc, text.as_bytes()) {
            Ok(name) => Ok(name),
            Err(_) => Err(NoMemory),
        },
        None => Err(NoMemory),
    }
}

fn uuid_of(text: &Text) -> Option<Uuid>
    ensures { result ≡ parsed text.now }
{
    match Uuid::parse_str(text.as_str()) {
        Ok(uuid) => Some(uuid),
        Err(_) => None,
    }
}

pub(crate) fn uuid_in(tree: &Tree) -> Option<Uuid>
    ensures { result ≡ option_and_then parsed (spec.own_text ElementName.Uuid (seen tree.now)) }
{
    match own_text(ElementName::Uuid, tree) {
        Some(text) => uuid_of(text),
        None => None,
    }
}

fn script_with(alloc: Global, text: &Text) -> Result<Script, NoMemory>
    ensures { IfOk result (λ s. s ≡ spec.script_with text.now) }
{
    let entries = match entries_of(alloc, text.as_bytes())? {
        Some(entries) => entries,
        None => ScriptEntryList::new(alloc),
    };
    Ok(Script {
        text: text.copy()?,
        entries,
    })
}

#[tactic(auto, unfolding(text_spec::specs::GuestScript::entries_of))]
fn no_script(alloc: Global) -> Script
    ensures { result ≡ spec.script_with [] }
{
    Script {
        text: Text::of(String::new(alloc)),
        entries: ScriptEntryList::new(alloc),
    }
}

#[tactic(auto, unfolding(text_spec::specs::DomainValue::script_of))]
fn script_in(alloc: Global, tree: &Tree) -> Result<Script, NoMemory>
    ensures { IfOk result (λ s. s ≡ spec.script_of (seen tree.now)) }
{
    let place = Place::Inside(ElementName::Metadata, ElementName::Guest);
    match value_at(place, Source::Text, tree) {
        Some(text) => script_with(alloc, text),
        None => Ok(no_script(alloc)),
    }
}

fn own_copy(name: ElementName, tree: &Tree) -> Result<Option<Text>, NoMemory>
    ensures { IfOk result (λ t. t ≡ spec.own_text name (seen tree.now)) }
{
    copied_value(Place::Child(name), Source::Text, tree)
}

/// The head of a domain's definition.
#[tactic(auto, unfolding(crate::specs::Parts::head_of))]
pub(crate) fn head_in(alloc: Global, tree: &Tree) -> Result<Head, NoMemory>
    ensures { IfOk result (λ h. h ≡ parts.head_of (seen tree.now)) }
{
    let ((name, guest), (title, description)) = both(
        both(name_in(alloc, tree), script_in(alloc, tree)),
        both(
            own_copy(ElementName::Title, tree),
            own_copy(ElementName::Description, tree),
        ),
    )?;
    Ok(Head {
        name,
        title,
        description,
        guest,
    })
}
