// Calls of a directory that fail.
use files_disk::{Effect, FailingCall, MemFiles};
use std::alloc::Global;

/// The files, of whose calls the one of this number fails with this effect. Where there is no memory none does.
pub(crate) fn failing_so(alloc: Global, files: MemFiles, number: u64, effect: Effect) -> MemFiles {
    let mut failing = Vec::new(alloc);
    let _ = failing.push(FailingCall { number, effect });
    files.failing(failing)
}

/// The files, of whose calls the one of this number fails, and does nothing.
pub(crate) fn failing_at(alloc: Global, files: MemFiles, number: u64) -> MemFiles {
    failing_so(alloc, files, number, Effect::Nothing)
}
