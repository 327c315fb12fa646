// Lines and columns.
ghost use Rattle.std.specs.Prelude.{◌≡◌, IfOk};
ghost use Rattle.std.specs.String.{string_bytes};
ghost use Rattle.command_spec.specs.Columns as spec;
ghost use Rattle.command_spec.specs.Printed.{field as field_of, row_text as row_text_of};

use std::alloc::Global;
use virt_types::NoMemory;

/// A text in a line of its own.
pub(crate) fn line(alloc: Global, text: &str) -> Result<String, NoMemory>
    ensures { IfOk result (λ line. string_bytes line ≡ spec.line text.now) }
{
    Ok(format!(in alloc; "{text}\n")?)
}

/// A row of the table: a number at the right, a name at the left, and a state.
pub(crate) fn row_text(alloc: Global, id: &str, name: &str, state: &str) -> Result<String, NoMemory>
    ensures { IfOk result (λ row. string_bytes row ≡ row_text_of id.now name.now state.now) }
{
    Ok(format!(in alloc; "{id:>5} {name:<20} {state}\n")?)
}

/// A label, and a value in the 17th column.
pub(crate) fn field(alloc: Global, label: &str, value: &str) -> Result<String, NoMemory>
    ensures { IfOk result (λ field. string_bytes field ≡ field_of label.now value.now) }
{
    Ok(format!(in alloc; "{label:<16}{value}\n")?)
}
