// Definitions of version 1 are written again, in version 2, with a stop at each call of the directory.
use crate::changes::{Answer, define};
use crate::keepers::TestKeeper;
use crate::openings::both_versions;
use def_keeper::Found;
use files_disk::MemFiles;
use std::alloc::Global;
use std::test::Fail;
use store_spec::Version;

// How many of the definitions that are found have each version.
fn versions_of(found: &Found) -> (usize, usize) {
    let rows = found.definitions.as_slice();
    let first = rows
        .iter()
        .filter(|row| row.version == Version::One)
        .count();
    (first, rows.len().saturating_sub(first))
}

// What a store finds that opens after a crash; none where it doesn't open.
fn left(alloc: Global, files: &MemFiles, moment: usize, lost: usize) -> Option<(usize, usize)> {
    match files.image(moment, lost, true) {
        Ok(image) => match TestKeeper::open(alloc, image) {
            Ok((_keeper, found)) => Some(versions_of(&found)),
            Err(_) => None,
        },
        Err(_) => None,
    }
}

// The first moment from `start` on at which a crash leaves another count of definitions than two.
fn first_other(alloc: Global, files: &MemFiles, start: usize) -> Option<usize> {
    for moment in start..=files.operations().len() {
        for lost in 0..3usize {
            if !matches!(left(alloc, files, moment, lost), Some((1, 1) | (0, 2))) {
                return Some(moment);
            }
        }
    }
    None
}

// The files of a store of both versions, whose first definition was written again; how many of each version it found, and what
// the change was answered.
fn rewritten(alloc: Global) -> Option<(MemFiles, (usize, usize), Answer)> {
    match TestKeeper::open(alloc, both_versions(alloc)) {
        Ok((mut keeper, found)) => {
            let answer = define(alloc, &mut keeper, 1, "a");
            let (files, _) = keeper.close();
            Some((files, versions_of(&found), answer))
        }
        Err(_) => None,
    }
}

#[test]
fn each_stop_of_a_rewriting_leaves_both_definitions(rt: HostRuntime) -> Result<(), Fail> {
    let (files, found, answer) = rewritten(rt.alloc()).ok_or("it does not open")?;
    assert_eq!(rt; (found, answer), ((1, 1), Answer::Done));
    let done = files.operations().len();
    let begun = done.saturating_sub(4);
    assert_eq!(rt; first_other(rt.alloc(), &files, begun), None);
    assert_eq!(rt; left(rt.alloc(), &files, begun, 0), Some((1, 1)));
    assert_eq!(rt; left(rt.alloc(), &files, done, 2), Some((0, 2)));
    Ok(())
}
