// Attributes with their values.
ghost use Rattle.std.specs.Prelude.{◌≡◌, ◌++◌, ◌∷◌, [], OnOk, IfOk};
ghost use Rattle.text_spec.specs.Spelling as spec;

use std::alloc::Global;
use text_spec::{AttributeName, Pair, PairList};
use virt_types::{NoMemory, Text};
use xml_tables::attribute_word;

/// Adds an attribute.
pub(crate) fn push_pair(
    alloc: Global,
    out: &mut PairList,
    name: AttributeName,
    value: &str,
) -> Result<(), NoMemory>
    ensures { OnOk result (out.new ≡ out.old ++ spec.pair name value.now ∷ []) }
{
    let name = Text::copy_of(alloc, attribute_word(name))?;
    let value = Text::copy_of(alloc, value)?;
    out.push(Pair { name, value })
}

/// Adds an attribute that has a value.
pub(crate) fn push_present(
    alloc: Global,
    out: &mut PairList,
    name: AttributeName,
    value: &Option<Text>,
) -> Result<(), NoMemory>
    ensures { OnOk result (out.new ≡ out.old ++ spec.pairs name value.now) }
{
    match value {
        Some(value) => push_pair(alloc, out, name, value.as_str()),
        None => Ok(()),
    }
}

/// One attribute.
pub(crate) fn one(alloc: Global, name: AttributeName, value: &str) -> Result<PairList, NoMemory>
    ensures { IfOk result (λ ps. ps ≡ spec.pair name value.now ∷ []) }
{
    let mut out = PairList::new(alloc);
    push_pair(alloc, &mut out, name, value)?;
    Ok(out)
}

/// One attribute, where it has a value.
pub(crate) fn one_present(
    alloc: Global,
    name: AttributeName,
    value: &Option<Text>,
) -> Result<PairList, NoMemory>
    ensures { IfOk result (λ ps. ps ≡ spec.pairs name value.now) }
{
    let mut out = PairList::new(alloc);
    push_present(alloc, &mut out, name, value)?;
    Ok(out)
}

/// Two attributes, each where it has a value.
pub(crate) fn two_present(
    alloc: Global,
    first: AttributeName,
    first_value: &Option<Text>,
    second: AttributeName,
    second_value: &Option<Text>,
) -> Result<PairList, NoMemory>
    ensures { IfOk result (λ ps. ps
        ≡ spec.pairs first first_value.now ++ spec.pairs second second_value.now) }
{
    let mut out = PairList::new(alloc);
    push_present(alloc, &mut out, first, first_value)?;
    push_present(alloc, &mut out, second, second_value)?;
    Ok(out)
}
