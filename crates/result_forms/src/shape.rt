// Whether a value has the shape of what a procedure replies.
ghost use Rattle.std.specs.Prelude.{◌≡◌, ◌↔◌, ◌≤◌, ◌<◌, ◌^◌, IsTrue, length};
ghost use Rattle.std.specs.List.{AllByRecursion};
ghost use Rattle.procedure_spec.specs.Results.{HasShape};
ghost use Rattle.procedure_spec.specs.declared.words.TheConstants.{NAMES_BOUND as MOST_ROWS, TITLE_BOUND as MOST_TITLE_BYTES};
ghost use Rattle.virt_types.specs.Limits.{most_state_bytes};

use procedure_spec::{NAMES_BOUND, ResultShape, TITLE_BOUND};
use virt_types::{MOST_STATE_BYTES, MigratedText, TitleRow, Value};

// Whether a list of so many has a spelling.
fn is_short_list(count: usize) -> bool
    ensures { IsTrue result ↔ (count ≤ MOST_ROWS) }
{
    count <= NAMES_BOUND as usize
}

// Whether a title has a spelling.
fn is_short_title(row: &TitleRow) -> bool
    ensures { IsTrue result ↔ (length row.now.title ≤ MOST_TITLE_BYTES) }
{
    row.title.as_str().len() <= TITLE_BOUND as usize
}

// And so each of them.
fn are_short_titles(rows: &[TitleRow]) -> bool
    ensures { IsTrue result ↔ AllByRecursion (λ t. length t.title ≤ MOST_TITLE_BYTES) rows.now }
{
    match rows {
        [] => true,
        [first, others @ ..] => is_short_title(first) && are_short_titles(others),
    }
}

// Whether a text has a spelling.
fn is_short_text(text: &str) -> bool
    ensures { IsTrue result ↔ (length text.now < 2 ^ 32) }
{
    text.len() <= u32::MAX as usize
}

// Whether a guest that leaves has a spelling.
fn is_short_guest(guest: &MigratedText) -> bool
    ensures { IsTrue result ↔ ((length guest.now.definition < 2 ^ 32) × (length guest.now.state ≤ most_state_bytes)) }
{
    is_short_text(guest.definition.as_str()) && guest.state.len() <= MOST_STATE_BYTES
}

/// Whether a value has this shape.
pub fn has_shape(value: &Value, shape: ResultShape) -> bool
    ensures { IsTrue result ↔ HasShape value.now shape }
{
    match value {
        Value::Nothing => shape == ResultShape::Nothing,
        Value::Domain(_) => shape == ResultShape::Domain,
        Value::Network(_) => shape == ResultShape::Network,
        Value::Pool(_) => shape == ResultShape::Pool,
        Value::Text(text) => shape == ResultShape::Text && is_short_text(text.as_str()),
        Value::Autostart(_) => shape == ResultShape::Autostart,
        Value::Info(_) => shape == ResultShape::Info,
        Value::Names(names) => shape == ResultShape::Names && is_short_list(names.len()),
        Value::Domains(rows) => shape == ResultShape::Domains && is_short_list(rows.len()),
        Value::Pools(rows) => shape == ResultShape::Pools && is_short_list(rows.len()),
        Value::Job(_) => shape == ResultShape::Job,
        Value::Name(_) => shape == ResultShape::Name,
        Value::Parent(_) => shape == ResultShape::OptionalName,
        Value::Memory(_) => shape == ResultShape::DoubleWord,
        Value::Leases(rows) => shape == ResultShape::Leases && is_short_list(rows.len()),
        Value::Titles(rows) => {
            shape == ResultShape::Titles
                && (is_short_list(rows.len()) && are_short_titles(rows.as_slice()))
        }
        Value::MigratedText(guest) => shape == ResultShape::Migrated
            && is_short_guest(guest.as_ref()),
        _ => false,
    }
}
