// Copies of values that may be absent.
ghost use Rattle.std.specs.Prelude.{◌≡◌, IfOk, option_map};
ghost use Rattle.text_spec.specs.Look as spec;
ghost use Rattle.text_spec.specs.Tree.{seen};

use crate::look::{attribute_of, value_at};
use text_spec::{AttributeName, Place, Source, Tree};
use types_base::{NoMemory, Text, TryCopy};

/// A copy of a text that may be absent.
fn copied(value: Option<&Text>) -> Result<Option<Text>, NoMemory>
    ensures { IfOk result (λ v. v ≡ option_map (λ t. t.now) value.entry) }
{
    match value {
        Some(text) => Ok(Some(text.copy()?)),
        None => Ok(None),
    }
}

/// The value of an attribute.
pub fn copied_attribute(name: AttributeName, tree: &Tree) -> Result<Option<Text>, NoMemory>
    ensures { IfOk result (λ v. v ≡ spec.attribute_of name (seen tree.now)) }
{
    copied(attribute_of(name, tree))
}

/// The value at a place.
pub fn copied_value(place: Place, source: Source, tree: &Tree) -> Result<Option<Text>, NoMemory>
    ensures { IfOk result (λ v. v ≡ spec.value_at place source (seen tree.now)) }
{
    copied(value_at(place, source, tree))
}
