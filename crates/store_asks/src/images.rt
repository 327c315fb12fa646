// The image of a guest.
ghost use Rattle.std.specs.Prelude.{◌≡◌, IfOk};
ghost use Rattle.store_asks.specs.Asks as spec;

use domain_texts::print_domain;
use std::alloc::Global;
use store_spec::Image;
use virt_types::{Bytes, DomainDef, ImageKind, NoMemory, TryCopy, both};

/// The image of a guest of this definition, in this state.
pub(crate) fn image_of(
    alloc: Global,
    kind: ImageKind,
    definition: &DomainDef,
    running: bool,
    bytes: &Bytes,
) -> Result<Image, NoMemory>
    ensures { IfOk result (λ image. image ≡ spec.image_of kind definition.now running bytes.now) }
{
    let (text, saved) = both(print_domain(alloc, definition), bytes.copy())?;
    Ok(Image {
        kind,
        running,
        text,
        saved,
    })
}
