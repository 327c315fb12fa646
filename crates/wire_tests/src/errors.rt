// Errors.
use crate::lines::Line;
use remote_args::read_error;
use std::alloc::Global;
use virt_types::OrNoMemory;

/// The code of the refusal that an error tells, with what it is about; or why the payload is no error.
pub(crate) fn put_error(line: &mut Line, alloc: Global, payload: &[u8]) {
    match read_error(alloc, payload) {
        Ok(refusal) => {
            line.put_number(refusal.code.number() as u64);
            line.put(" [");
            line.put(refusal.kept.as_str());
            line.put("]");
        }
        Err(OrNoMemory::Fault(fault)) => line.put_fault(fault),
        Err(OrNoMemory::NoMemory) => line.lose(),
    }
}
