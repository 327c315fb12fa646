// Values, each with its fault.
ghost use Rattle.std.specs.Prelude.{◌≡◌, Ok, option_map};
ghost use Rattle.text_spec.specs.Tree.{seen};
ghost use Rattle.uuid.specs.Text.{parsed};
ghost use Rattle.types_base.specs.Memory.{UnlessNoMemory};
ghost use Rattle.xml_tables.specs.Rows.{needed, optional};
ghost use Rattle.xml_tables.specs.Values as spec;

use crate::fault::fault_at_path;
use crate::value_called;
use std::alloc::Global;
use text_spec::{DefFault, DefKind, SizeFault, Tree};
use types_base::{Name, NoMemory, OrNoMemory, Text, TryCopy};
use uuid::Uuid;
use xml_words::read_bytes;

/// A name that has to be there.
///
/// The fault is `Missing` where it is absent, `BadValue` where the text is no name.
pub fn needed_name(
    alloc: Global,
    path: &str,
    text: Option<&Text>,
) -> Result<Name, OrNoMemory<DefFault>>
    ensures { UnlessNoMemory result (needed path.now spec.name_value (option_map (λ t. t.now) text.entry)) }
{
    match text {
        None => Err(fault_at_path(alloc, path, DefKind::Missing)),
        Some(text) => match Name::read(alloc, text.as_bytes()) {
            Ok(name) => Ok(name),
            Err(OrNoMemory::Fault(_)) => Err(fault_at_path(alloc, path, DefKind::BadValue)),
            Err(OrNoMemory::NoMemory) => Err(OrNoMemory::NoMemory),
        },
    }
}

fn uuid_of(text: &Text) -> Option<Uuid>
    ensures { result ≡ parsed text.now }
{
    match Uuid::parse_str(text.as_str()) {
        Ok(uuid) => Some(uuid),
        Err(_) => None,
    }
}

/// An identifier that may be absent.
///
/// The fault is `BadValue` where the text has none of the forms of a UUID.
pub fn optional_uuid(
    alloc: Global,
    path: &str,
    text: Option<&Text>,
) -> Result<Option<Uuid>, OrNoMemory<DefFault>>
    ensures { UnlessNoMemory result (optional path.now spec.uuid_value (option_map (λ t. t.now) text.entry)) }
{
    match text {
        None => Ok(None),
        Some(text) => match uuid_of(text) {
            Some(uuid) => Ok(Some(uuid)),
            None => Err(fault_at_path(alloc, path, DefKind::BadValue)),
        },
    }
}

/// A text that has to be there. The fault is `Missing` where it is absent.
pub fn needed_text(
    alloc: Global,
    path: &str,
    text: Option<&Text>,
) -> Result<Text, OrNoMemory<DefFault>>
    ensures { UnlessNoMemory result (needed path.now Ok (option_map (λ t. t.now) text.entry)) }
{
    match text {
        None => Err(fault_at_path(alloc, path, DefKind::Missing)),
        Some(text) => match text.copy() {
            Ok(text) => Ok(text),
            Err(NoMemory) => Err(OrNoMemory::NoMemory),
        },
    }
}

fn size_of(element: &Tree) -> Result<u64, DefKind>
    ensures { result ≡ spec.size_value (seen element.now) }
{
    let unit = match value_called("unit", element) {
        Some(unit) => Some(unit.as_str()),
        None => None,
    };
    match read_bytes(element.text.as_str(), unit) {
        Ok(bytes) => Ok(bytes),
        Err(SizeFault::BadValue) => Err(DefKind::BadValue),
        Err(SizeFault::Range) => Err(DefKind::Range),
    }
}

/// A size in bytes that has to be there: the element's text in the unit of its attribute `unit`.
///
/// The fault is `Missing` where the element is absent, `BadValue` where it says no size, `Range` where
/// the size is above 2^60.
pub fn needed_size(
    alloc: Global,
    path: &str,
    element: Option<&Tree>,
) -> Result<u64, OrNoMemory<DefFault>>
    ensures { UnlessNoMemory result (needed path.now spec.size_value (option_map (λ t. seen t.now) element.entry)) }
{
    match element {
        None => Err(fault_at_path(alloc, path, DefKind::Missing)),
        Some(element) => match size_of(element) {
            Ok(size) => Ok(size),
            Err(kind) => Err(fault_at_path(alloc, path, kind)),
        },
    }
}

/// The same of a size that may be absent.
pub fn optional_size(
    alloc: Global,
    path: &str,
    element: Option<&Tree>,
) -> Result<Option<u64>, OrNoMemory<DefFault>>
    ensures { UnlessNoMemory result (optional path.now spec.size_value (option_map (λ t. seen t.now) element.entry)) }
{
    match element {
        None => Ok(None),
        Some(element) => match size_of(element) {
            Ok(size) => Ok(Some(size)),
            Err(kind) => Err(fault_at_path(alloc, path, kind)),
        },
    }
}
