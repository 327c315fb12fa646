// What is said on standard error.
ghost use Rattle.std.specs.Prelude.{◌≡◌, OnErr, OnOk};
ghost use Rattle.command_spec.specs.Printed.{error_text};
ghost use Rattle.virsh.specs.Outside.{with_line};
ghost use Rattle.virsh.specs.Said as said;

use crate::dial::Dial;
use std::alloc::Global;
use virsh_text::refusal_line;
use virt_types::{NoMemory, Refusal};

/// The words are those of no command.
pub(crate) fn say_usage<D: Dial>(dial: &mut D)
    ensures { D.given dial.new ≡ with_line said.usage_line (D.given dial.old) }
{
    dial.err(b"virsh: usage\n");
}

/// The file has no text that may be sent.
pub(crate) fn say_bad_file<D: Dial>(dial: &mut D)
    ensures { D.given dial.new ≡ with_line said.bad_file_line (D.given dial.old) }
{
    dial.err(b"virsh: bad file\n");
}

/// The file can't be read.
pub(crate) fn say_file<D: Dial>(dial: &mut D)
    ensures { D.given dial.new ≡ with_line said.file_line (D.given dial.old) }
{
    dial.err(b"virsh: file\n");
}

/// The connection or standard output failed, or what came is no answer.
pub(crate) fn say_link<D: Dial>(dial: &mut D)
    ensures { D.given dial.new ≡ with_line said.link_line (D.given dial.old) }
{
    dial.err(b"virsh: link\n");
}

/// There was no memory.
pub(crate) fn say_out_of_memory<D: Dial>(dial: &mut D)
    ensures { D.given dial.new ≡ with_line said.memory_line (D.given dial.old) }
{
    dial.err(b"virsh: out of memory\n");
}

/// The daemon refused a call.
pub(crate) fn say_refusal<D: Dial>(
    alloc: Global,
    dial: &mut D,
    refusal: &Refusal,
) -> Result<(), NoMemory>
    ensures ok { OnOk result (D.given dial.new ≡ with_line (error_text refusal.now) (D.given dial.old)) }
    ensures err { OnErr result (D.given dial.new ≡ D.given dial.old) }
{
    let line = refusal_line(alloc, refusal)?;
    dial.err(line.as_bytes());
    Ok(())
}
