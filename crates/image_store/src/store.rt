// Images are written to a store and read from it.
ghost use Rattle.std.specs.Prelude.{◌≡◌, ◌≤◌, IfOk, IsErrOf};
ghost use Rattle.outside_spec.specs.Faults.{Rose};
ghost use Rattle.virt_types.specs.Below.types_base.declared.memory.Fault.TheVariants as fault;
ghost use Rattle.store_spec.specs.ImageFile.{image_bytes};
ghost use Rattle.store_spec.specs.ImageSteps.{image_draft, image_name};
ghost use Rattle.image_store.specs.Storing.{HasDevice, IsReadOf, ReadsImage, WritesImage};

use crate::reading::read;
use crate::spelling::{image_bytes, image_draft, image_name};
use files_disk::{Files, put_file};
use std::alloc::Global;
use store_spec::{Image, ImageFault};
use virt_types::{Bytes, Fault, ImageKind, Name, NoMemory, OrNoMemory, Text};

// What is written for an image, and under which names.
#[derive(Drop)]
struct Draft {
    draft: Text,
    name: Text,
    content: Bytes,
}

fn draft_of(alloc: Global, name: &Name, image: &Image) -> Result<Draft, NoMemory>
    ensures draft { IfOk result (λ d. d.draft ≡ image_draft name.now) }
    ensures name { IfOk result (λ d. d.name ≡ image_name image.now.kind name.now) }
    ensures content { IfOk result (λ d. d.content ≡ image_bytes image.now) }
{
    let draft = image_draft(alloc, name)?;
    let name = image_name(alloc, image.kind, name)?;
    let content = image_bytes(alloc, image)?;
    Ok(Draft {
        draft,
        name,
        content,
    })
}

/// Writes an image: its draft is written and synced, gets the image's name, and the directory is
/// synced. A text of more than 65,536 bytes is written too, and then not read.
pub fn write_image<F: Files>(
    alloc: Global,
    files: &mut F,
    name: &Name,
    image: &Image,
) -> Result<(), Fault>
    ensures told { WritesImage name.now image.now (F.told files.old) (F.told files.new) result }
    ensures cause { IsErrOf result fault.Failed → Rose (F.faults files.old) (F.faults files.new) }
    ensures faults { F.faults files.old ≤ F.faults files.new }
{
    match draft_of(alloc, name, image) {
        Ok(draft) => put_file(files, &draft.draft, &draft.name, draft.content.as_slice()),
        Err(NoMemory) => Err(Fault::NoMemory),
    }
}

// The image of a file's bytes, or why there is none.
fn image_of(alloc: Global, bytes: &[u8]) -> Result<Image, OrNoMemory<ImageFault>>
    ensures { IsReadOf bytes.now result }
{
    match read(alloc, bytes) {
        Ok(Ok(image)) => Ok(image),
        Ok(Err(field)) => Err(OrNoMemory::Fault(ImageFault::BadImage { field })),
        Err(NoMemory) => Err(OrNoMemory::NoMemory),
    }
}

/// Reads the image of a save. `NoImage` where there is no such file, `BadImage` with the first field
/// that is wrong, `Device` where the store failed.
pub fn read_image<F: Files>(
    alloc: Global,
    files: &mut F,
    name: &Name,
) -> Result<Image, OrNoMemory<ImageFault>>
    ensures image { ReadsImage (F.told files.old) name.now result }
    ensures told { F.told files.new ≡ F.told files.old }
    ensures device { HasDevice (F.faults files.old) (F.faults files.new) result }
    ensures faults { F.faults files.old ≤ F.faults files.new }
{
    let file = match image_name(alloc, ImageKind::Save, name) {
        Ok(file) => file,
        Err(NoMemory) => return Err(OrNoMemory::NoMemory),
    };
    match files.read(&file) {
        Ok(Some(bytes)) => image_of(alloc, bytes.as_slice()),
        Ok(None) => Err(OrNoMemory::Fault(ImageFault::NoImage)),
        Err(Fault::Failed) => Err(OrNoMemory::Fault(ImageFault::Device)),
        Err(Fault::NoMemory) => Err(OrNoMemory::NoMemory),
    }
}
