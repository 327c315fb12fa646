// A refusal, in a line.
ghost use Rattle.std.specs.Prelude.{◌≡◌, IfOk};
ghost use Rattle.command_spec.specs.Printed.{error_text};

use std::alloc::Global;
use virt_types::{NoMemory, Refusal, Text};

/// The line of a refusal: `error: MESSAGE`, or `error: MESSAGE: KEPT` where it keeps what was asked for.
pub fn refusal_line(alloc: Global, refusal: &Refusal) -> Result<Text, NoMemory>
    ensures { IfOk result (λ text. text ≡ error_text refusal.now) }
{
    let (message, kept) = (refusal.code.message(), refusal.kept.as_str());
    if kept.is_empty() {
        return Ok(Text::of(format!(in alloc; "error: {message}\n")?));
    }
    Ok(Text::of(format!(in alloc; "error: {message}: {kept}\n")?))
}
