// Faults while a keeper writes and reads an image.
use crate::failing::failing_at;
use crate::keepers::TestKeeper;
use crate::names::name;
use files_disk::MemFiles;
use std::alloc::Global;
use store_spec::{Image, ImageFault};
use virt_types::{Bytes, ImageKind, NoMemory, OrNoMemory, Text, both};

fn image(alloc: Global) -> Result<Image, NoMemory> {
    let (text, saved) = both(
        Text::copy_of(alloc, "abc"),
        Bytes::copy_of(alloc, b"\x01\xff".as_slice()),
    )?;
    Ok(Image {
        kind: ImageKind::Save,
        running: true,
        text,
        saved,
    })
}

// What a call of an image answered.
#[derive(Clone, Copy, Debug, PartialEq, Eq)]
enum Answer {
    Done,
    Failed,
    Fault(ImageFault),
    NoMemory,
}

// Reads the image `s`. One with another text counts as none for which there is memory.
fn read(alloc: Global, keeper: &mut TestKeeper) -> Answer {
    let Ok(name) = name(alloc, "s") else {
        return Answer::NoMemory;
    };
    match keeper.read_image(&name) {
        Ok(image) if image.text.as_bytes() == b"abc".as_slice() => Answer::Done,
        Ok(_) => Answer::NoMemory,
        Err(OrNoMemory::Fault(fault)) => Answer::Fault(fault),
        Err(OrNoMemory::NoMemory) => Answer::NoMemory,
    }
}

// Writes the image `s`.
fn write(alloc: Global, keeper: &mut TestKeeper) -> Answer {
    let Ok((name, image)) = both(name(alloc, "s"), image(alloc)) else {
        return Answer::NoMemory;
    };
    match keeper.write_image(&name, &image) {
        Ok(()) => Answer::Done,
        Err(_) => Answer::Failed,
    }
}

// What a write, a read, a second write and a read of it answer, where the call of this number fails; and how many marks they
// leave.
fn answers(alloc: Global, number: u64) -> ([Answer; 4], u64) {
    match TestKeeper::open(alloc, failing_at(alloc, MemFiles::new(alloc), number)) {
        Ok((mut keeper, _found)) => {
            let answers = [
                write(alloc, &mut keeper),
                read(alloc, &mut keeper),
                write(alloc, &mut keeper),
                read(alloc, &mut keeper),
            ];
            (answers, keeper.marks())
        }
        Err(_) => ([Answer::NoMemory; 4], 0),
    }
}

#[test]
fn a_fault_in_each_call_of_an_image_is_told_in_that_call_alone(rt: HostRuntime) {
    let (failed, done) = (Answer::Failed, Answer::Done);
    let none = Answer::Fault(ImageFault::NoImage);
    let device = Answer::Fault(ImageFault::Device);
    let rows = [
        (3, failed, none),
        (4, failed, none),
        (5, failed, none),
        (6, failed, done),
        (7, done, device),
    ];
    for (number, written, found) in rows {
        assert_eq!(rt;
            answers(rt.alloc(), number),
            ([written, found, done, done], 4)
        );
    }
}
