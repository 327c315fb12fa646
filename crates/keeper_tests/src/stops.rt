// What stops leave of changes that a keeper makes, at each operation.
use crate::changes::{Answer, define, uuid};
use crate::crashes::{DROPPED_FIRST, THREE_PUTS, is_one_of};
use crate::failing::failing_so;
use crate::keepers::TestKeeper;
use def_keeper::Keeper;
use def_map::DefMap;
use files_disk::{Effect, MemFiles};
use std::alloc::Global;
use store_spec::BookKind;

fn keeper(alloc: Global, files: MemFiles) -> TestKeeper {
    Keeper::adopt(alloc, files, DefMap::new(alloc))
}

// Which definitions a keeper finds that opens these files; none where it doesn't open.
fn standing(alloc: Global, files: MemFiles) -> Option<u32> {
    let Ok((keeper, _found)) = TestKeeper::open(alloc, files) else {
        return None;
    };
    let mut found = 0u32;
    for number in 0..3u8 {
        if keeper.map().get(BookKind::Domain, uuid(number)).is_some() {
            found |= 1 << number;
        }
    }
    Some(found)
}

// The same after a crash.
fn left(alloc: Global, files: &MemFiles, moment: usize, lost: usize, torn: bool) -> Option<u32> {
    match files.image(moment, lost, torn) {
        Ok(image) => standing(alloc, image),
        Err(_) => None,
    }
}

// Whether each crash after so many operations leaves one of these sets, and each of them is left.
fn leaves(alloc: Global, files: &MemFiles, moment: usize, sets: &[u32]) -> bool {
    let mut seen = 0u32;
    for lost in 0..4usize {
        for torn in [false, true] {
            if !is_one_of(left(alloc, files, moment, lost, torn), sets, &mut seen) {
                return false;
            }
        }
    }
    seen.count_ones() as usize == sets.len()
}

// The first moment at which a crash leaves other sets than these, or the count of operations.
fn first_other(alloc: Global, files: &MemFiles, rows: &[&[u32]]) -> usize {
    for (moment, sets) in rows.iter().enumerate() {
        if !leaves(alloc, files, moment, sets) {
            return moment;
        }
    }
    files.operations().len()
}

// What three defines answer; whether the second one's domain is there then; and the files.
fn three(alloc: Global, files: MemFiles) -> ([Answer; 3], bool, MemFiles) {
    let mut keeper = keeper(alloc, files);
    let first = define(alloc, &mut keeper, 0, "a");
    let second = define(alloc, &mut keeper, 1, "b");
    let is_there = keeper.map().get(BookKind::Domain, uuid(1)).is_some();
    let third = define(alloc, &mut keeper, 2, "c");
    let (files, _) = keeper.close();
    ([first, second, third], is_there, files)
}

#[test]
fn each_stop_of_three_defines_leaves_the_first_ones(rt: HostRuntime) {
    let (answers, is_there, files) = three(rt.alloc(), MemFiles::new(rt.alloc()));
    assert_eq!(rt; (answers, is_there), ([Answer::Done; 3], true));
    assert_eq!(rt; first_other(rt.alloc(), &files, &THREE_PUTS), 12);
}

fn failing(alloc: Global, number: u64, effect: Effect) -> MemFiles {
    failing_so(alloc, MemFiles::new(alloc), number, effect)
}

#[test]
fn a_change_in_doubt_is_settled_by_the_next(rt: HostRuntime) {
    let (answers, is_there, files) = three(rt.alloc(), failing(rt.alloc(), 8, Effect::Nothing));
    let wanted = [Answer::Done, Answer::Device, Answer::Done];
    assert_eq!(rt; (answers, is_there), (wanted, false));
    assert_eq!(rt; first_other(rt.alloc(), &files, &DROPPED_FIRST), 13);
}

// What two equal defines answer, of which a call fails so, and what stands then.
fn twice(alloc: Global, number: u64, effect: Effect) -> ([Answer; 2], Option<u32>) {
    let mut keeper = keeper(alloc, failing(alloc, number, effect));
    let first = define(alloc, &mut keeper, 0, "a");
    let second = define(alloc, &mut keeper, 0, "a");
    let (files, _) = keeper.close();
    ([first, second], standing(alloc, files))
}

#[test]
fn a_fault_in_each_call_is_told_in_that_call_alone(rt: HostRuntime) {
    for number in 1..5u64 {
        for effect in [Effect::Nothing, Effect::Half, Effect::Whole] {
            let wanted = ([Answer::Device, Answer::Done], Some(1));
            assert_eq!(rt; twice(rt.alloc(), number, effect), wanted);
        }
    }
}
