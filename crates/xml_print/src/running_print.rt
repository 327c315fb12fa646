// The text of a running domain.
ghost use Rattle.std.specs.Prelude.{◌≡◌, IfOk};
ghost use Rattle.xml_tables.specs.Below.text_laws.ReadsAs.{IsSound, ReadsAsDomain};
ghost use Rattle.text_spec.specs.Writable.{IsWritable};
ghost use Rattle.text_spec.specs.Written.{written};
ghost use Rattle.xml_print.specs.LiveText as spec;

use crate::laws::live_text_reads_back;
use crate::tree::live_tree;
use markup::write_tree;
use std::alloc::Global;
use virt_types::{Live, NoMemory, Text};

/// The text of a running domain: that of the definition that its guest has now, in which each disk
/// and interface has its address as its last element. Where the guest's slots are fewer than its
/// disks and interfaces, the last of these have none.
///
/// Reading passes addresses over. So the text reads as the definition, where that is sound and the
/// text is within the limits of a text, which addresses may take it past.
pub fn print_live(alloc: Global, live: &Live) -> Result<Text, NoMemory>
    ensures spelling { IfOk result (λ text. text ≡ written (spec.live_tree live.now)) }
    ensures reads_back { IfOk result (λ text. IsSound live.now.def
        → IsWritable (spec.live_tree live.now) → ReadsAsDomain text live.now.def) }
{
    live_text_reads_back();
    let tree = live_tree(alloc, live)?;
    write_tree(alloc, &tree)
}
