// What the words say that nobody waits for.
ghost use Rattle.std.specs.Prelude.{◌≡◌, IfNone, IfSome, map};
ghost use Rattle.std.specs.String.{string_bytes};
ghost use Rattle.virtd.specs.Offline.{Does, Lists};
ghost use Rattle.virtd.specs.Words.{IsOffline};

use crate::checking::check_directory;
use crate::print::{print, status_once_printed};
use crate::world::World;
use daemon_words::{DaemonCommand, command_list, read_words};
use std::alloc::Global;

// `virtd words`
fn list_commands<W: World>(world: &mut W) -> u8
    ensures { Lists W.K.held W.K.faults (W.given world.old) (W.given world.new) result }
{
    let put = print(world, command_list().as_bytes());
    status_once_printed(world, 0, put)
}

/// Does what the words say that nobody waits for, and answers the program's status. `words` lists the daemon's commands
/// on standard output: 0. `check DIR` prints what each file of the store in the directory DIR is, and changes nothing: 0
/// where all are good, 6 where one is damaged, 4 where the store failed, and 12 where there was no memory. Both answer 5
/// where standard output failed. Each status but 0 has its line on standard error. None exactly for other words, and then
/// nothing was done.
pub fn offline<W: World>(alloc: Global, words: &[String], world: &mut W) -> Option<u8>
    ensures none { IfNone result (IsOffline (map string_bytes words.now) → ⊥) }
    ensures nothing { IfNone result (W.given world.new ≡ W.given world.old) }
    ensures does { IfSome result
        (Does W.F.told W.F.faults W.K.held W.K.faults (map string_bytes words.now) (W.given world.old) (W.given world.new)) }
{
    match read_words(words) {
        Some(DaemonCommand::Words) => Some(list_commands(world)),
        Some(DaemonCommand::Check { directory }) => Some(check_directory(alloc, world, directory)),
        Some(DaemonCommand::Demo) => None,
        Some(DaemonCommand::Stdio { directory: _ }) => None,
        None => None,
    }
}
