// Names of objects and of images.
use std::alloc::Global;
use virt_types::{Name, NoMemory};

/// The name of this text, which is one.
pub(crate) fn name(alloc: Global, text: &str) -> Result<Name, NoMemory> {
    match Name::read(alloc, text.as_bytes()) {
        Ok(name) => Ok(name),
        Err(_) => Err(NoMemory),
    }
}
