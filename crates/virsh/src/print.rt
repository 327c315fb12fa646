// Standard output.
ghost use Rattle.std.specs.Prelude.{◌≡◌};
ghost use Rattle.virsh.specs.Outside.{with_out};
ghost use Rattle.virsh.specs.Printing.{HasPut};

use crate::dial::Dial;
use packet::put_all;
use virt_types::Failed;

/// Puts a text into standard output.
pub(crate) fn print<D: Dial>(dial: &mut D, text: &[u8]) -> Result<(), Failed>
    ensures put { HasPut D.O.held D.O.faults text.now (D.given dial.old).out (D.given dial.new).out result }
    ensures rest { D.given dial.new ≡ with_out (D.given dial.new).out (D.given dial.old) }
{
    put_all(dial.out(), text)
}
