// What a guest gets, and what follows when it goes down.
ghost use Rattle.std.specs.Prelude.{◌≡◌, ◌≤◌, option_map};
ghost use Rattle.text_spec.specs.DomainValue as spec;
ghost use Rattle.text_spec.specs.GuestScript.{number_within};
ghost use Rattle.text_spec.specs.Tree.{seen};

use crate::head::own_text;
use text_spec::{AttributeName, ElementName, MOST_VCPUS, Place, Source, Tree};
use types_base::{CrashAction, LifecycleAction, Text};
use xml_tables::{
    crash_action_of, first_of, lifecycle_action_of, memory_size, read_number, value_at,
};

#[tactic(auto, using(text_spec::proofs::Seen::text_seen))]
fn memory_in(element: &Tree) -> Option<u64>
    ensures { result ≡ spec.memory_in (seen element.now) }
{
    memory_size(element, &element.text).ok()
}

fn memory_at(name: ElementName, tree: &Tree) -> Option<u64>
    ensures { result ≡ spec.memory_at name (seen tree.now) }
{
    match first_of(name, tree) {
        Some(element) => memory_in(element),
        None => None,
    }
}

// Memory is needed, so this default is not used where the element has no fault.
#[tactic(auto, unfolding(text_spec::specs::DomainValue::memory_of))]
pub(crate) fn memory_of(tree: &Tree) -> u64
    ensures { result ≡ spec.memory_of (seen tree.now) }
{
    memory_at(ElementName::Memory, tree).unwrap_or(1)
}

#[tactic(auto, unfolding(text_spec::specs::DomainValue::current_memory_of))]
pub(crate) fn current_memory_of(tree: &Tree) -> u64
    ensures { result ≡ spec.current_memory_of (seen tree.now) }
{
    let memory = memory_of(tree);
    memory.min(memory_at(ElementName::CurrentMemory, tree).unwrap_or(memory))
}

#[tactic(auto, unfolding(text_spec::specs::GuestScript::number_within))]
fn count_within(most: u32, text: &Text) -> Option<u32>
    ensures { result ≡ number_within 1 most text.now }
{
    let number = read_number(text.as_str())?;
    if 1 <= number && number <= most as u64 {
        Some(number as u32)
    } else {
        None
    }
}

#[tactic(auto, unfolding(text_spec::specs::DomainValue::vcpus_of))]
pub(crate) fn vcpus_of(tree: &Tree) -> u32
    ensures { result ≡ spec.vcpus_of (seen tree.now) }
{
    match own_text(ElementName::Vcpu, tree) {
        Some(text) => count_within(MOST_VCPUS, text).unwrap_or(1),
        None => 1,
    }
}

#[tactic(auto, unfolding(text_spec::specs::DomainValue::current_vcpus_of))]
pub(crate) fn current_vcpus_of(tree: &Tree) -> u32
    ensures { result ≡ spec.current_vcpus_of (seen tree.now) }
{
    let vcpus = vcpus_of(tree);
    let current = Source::Attribute(AttributeName::Current);
    match value_at(Place::Child(ElementName::Vcpu), current, tree) {
        Some(text) => count_within(vcpus, text).unwrap_or(vcpus),
        None => vcpus,
    }
}

#[tactic(auto, unfolding(text_spec::specs::DomainValue::lifecycle_in))]
pub(crate) fn lifecycle_in(
    name: ElementName,
    usual: LifecycleAction,
    tree: &Tree,
) -> LifecycleAction
    ensures { result ≡ spec.lifecycle_in name usual (seen tree.now) }
{
    match own_text(name, tree) {
        Some(word) => lifecycle_action_of(word.as_str()).unwrap_or(usual),
        None => usual,
    }
}

#[tactic(auto, unfolding(text_spec::specs::DomainValue::crash_in))]
pub(crate) fn crash_in(tree: &Tree) -> CrashAction
    ensures { result ≡ spec.crash_in (seen tree.now) }
{
    match own_text(ElementName::OnCrash, tree) {
        Some(word) => crash_action_of(word.as_str()).unwrap_or(CrashAction::Destroy),
        None => CrashAction::Destroy,
    }
}
