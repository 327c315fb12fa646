// What came about in a domain, in a line.
ghost use Rattle.std.specs.Prelude.{◌≡◌, IfOk};
ghost use Rattle.std.specs.String.{string_bytes};
ghost use Rattle.command_spec.specs.Columns.{line as line_of};
ghost use Rattle.command_spec.specs.Printed as spec;

use crate::column::line;
use std::alloc::Global;
use virt_types::{NoMemory, Note, Text, Transition};

fn transition_line(alloc: Global, transition: Transition) -> Result<String, NoMemory>
    ensures { IfOk result (λ text. string_bytes text ≡ line_of (spec.transition_text transition)) }
{
    let (event, detail) = (transition.event, transition.detail);
    Ok(format!(in alloc; "event {event} detail {detail}\n")?)
}

/// The line of what a daemon told of a domain: `event E detail D`, or `events lost`.
pub fn note_line(alloc: Global, note: &Note) -> Result<Text, NoMemory>
    ensures { IfOk result (λ text. text ≡ line_of (spec.note_text note.now)) }
{
    match note {
        Note::Event { transition, .. } => Ok(Text::of(transition_line(alloc, *transition)?)),
        Note::Lost { .. } => Ok(Text::of(line(alloc, "events lost")?)),
    }
}
