// Standard output, where nobody is served.
ghost use Rattle.std.specs.Prelude.{◌≡◌};
ghost use Rattle.virtd.specs.Printing.{Prints, printed};

use crate::connection::Connection;
use crate::say::say_link;
use crate::status::LINK;
use crate::world::World;
use packet::put_all;
use virt_types::Failed;

/// Puts a text into standard output.
pub(crate) fn print<W: World>(world: &mut W, text: &[u8]) -> Result<(), Failed>
    ensures { Prints W.K.held W.K.faults text.now (W.given world.old) (W.given world.new) result }
{
    let Connection {
        source,
        mut sink,
        random,
    } = world.connection();
    let put = put_all(&mut sink, text);
    world.ended(source, sink, random);
    put
}

/// The status of a program that printed: this one, or that of a fault of standard output, which is said.
pub(crate) fn status_once_printed<W: World>(
    world: &mut W,
    status: u8,
    put: Result<(), Failed>,
) -> u8
    ensures status { result ≡ printed status put }
    ensures given { W.given world.new ≡ W.given world.old }
{
    match put {
        Ok(()) => status,
        Err(Failed) => {
            say_link(world);
            LINK
        }
    }
}
