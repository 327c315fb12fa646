// `virtd check DIR`: what the files of a directory are.
ghost use Rattle.std.specs.Prelude.{◌≡◌};
ghost use Rattle.virtd.specs.Checks.{ChecksDirectory, ChecksFiles, Reports};

use crate::print::{print, status_once_printed};
use crate::say::{say_damaged, say_out_of_memory, say_store};
use crate::status::{OUT_OF_MEMORY, STORE};
use crate::world::World;
use std::alloc::Global;
use store_check::{Checked, check_store, status_of};
use virt_types::{Fault, Text};

// Says which file is damaged, if one is.
fn say_first_damaged<W: World>(alloc: Global, world: &mut W, damaged: &Option<Text>)
    ensures { W.given world.new ≡ W.given world.old }
{
    if let Some(file) = damaged {
        say_damaged(alloc, world, file.as_str());
    }
}

// Prints what a check found, and says which file is damaged; or says why nothing was found.
fn report<W: World>(alloc: Global, world: &mut W, checked: &Result<Checked, Fault>) -> u8
    ensures { Reports W.K.held W.K.faults checked.now (W.given world.old) (W.given world.new) result }
{
    let code = status_of(checked);
    match checked {
        Ok(found) => {
            let put = print(world, found.text.as_bytes());
            if put.is_ok() {
                say_first_damaged(alloc, world, &found.damaged);
            }
            status_once_printed(world, code, put)
        }
        Err(Fault::Failed) => {
            say_store(world);
            code
        }
        Err(Fault::NoMemory) => {
            say_out_of_memory(world);
            code
        }
    }
}

fn check_files<W: World>(alloc: Global, world: &mut W, mut files: W::F) -> u8
    ensures { ChecksFiles W.F.told W.F.faults W.K.held W.K.faults files (W.given world.old) (W.given world.new) result }
{
    let checked = check_store(alloc, &mut files);
    world.closed(files);
    report(alloc, world, &checked)
}

/// Checks the files of a directory and prints what each of them is. The status is 0 where all are good, 6 where one is
/// damaged, 4 where the store failed, 5 where standard output failed, and 12 where there was no memory.
pub(crate) fn check_directory<W: World>(alloc: Global, world: &mut W, directory: &str) -> u8
    ensures { ChecksDirectory W.F.told W.F.faults W.K.held W.K.faults directory.now (W.given world.old) (W.given world.new) result }
{
    match world.files(directory) {
        Ok(files) => check_files(alloc, world, files),
        Err(Fault::Failed) => {
            say_store(world);
            STORE
        }
        Err(Fault::NoMemory) => {
            say_out_of_memory(world);
            OUT_OF_MEMORY
        }
    }
}
