// The names and bytes of images' files.
ghost use Rattle.std.specs.Prelude.{◌≡◌, ◌++◌, IfOk, OnOk};
ghost use Rattle.store_spec.specs.ImageFile.{image_bytes, magic, word};
ghost use Rattle.store_spec.specs.ImageSteps.{image_draft, image_ending, image_name};

use std::alloc::Global;
use store_spec::Image;
use virt_types::{Bytes, ImageKind, Name, NoMemory, Text};

/// The word that says that a file is an image.
pub(crate) const MAGIC: u32 = 0x5644_4d49;

// Puts a number as a word, the highest byte first; one that has none is put as the greatest.
#[tactic(auto, unfolding(store_spec::specs::ImageFile::word))]
fn put_word(bytes: &mut Vec<u8>, number: usize) -> Result<(), NoMemory>
    ensures { OnOk result (bytes.new.items ≡ bytes.old.items ++ word number) }
{
    let word = number.min(u32::MAX as usize) as u32;
    bytes.extend_from_slice(word.to_be_bytes().as_slice())?;
    Ok(())
}

/// The bytes of an image's file.
#[tactic(auto, unfolding(store_spec::specs::ImageFile::image_bytes))]
pub(crate) fn image_bytes(alloc: Global, image: &Image) -> Result<Bytes, NoMemory>
    ensures { IfOk result (λ b. b ≡ image_bytes image.now) }
{
    let mut bytes = Vec::new(alloc);
    put_word(&mut bytes, MAGIC as usize)?;
    put_word(&mut bytes, 1)?;
    put_word(&mut bytes, image.kind.number() as usize)?;
    put_word(&mut bytes, image.running as usize)?;
    put_word(&mut bytes, 0)?;
    put_word(&mut bytes, image.text.len())?;
    put_word(&mut bytes, image.saved.len())?;
    bytes.extend_from_slice(image.text.as_bytes())?;
    bytes.extend_from_slice(image.saved.as_slice())?;
    Ok(Bytes::of(bytes))
}

fn named(alloc: Global, name: &Name, ending: &str) -> Result<Text, NoMemory>
    ensures { IfOk result (λ t. t ≡ name.now ++ ending.now) }
{
    let mut text = String::from_str(alloc, name.as_str())?;
    text.push_str(ending)?;
    Ok(Text::of(text))
}

// The ending of the file of an image of this kind.
fn ending(kind: ImageKind) -> &'static str
    ensures { result.now ≡ image_ending kind }
{
    match kind {
        ImageKind::Save => ".img",
        ImageKind::Dump => ".dump",
    }
}

/// The name of an image's file.
#[tactic(auto, unfolding(store_spec::specs::ImageSteps::image_name))]
pub(crate) fn image_name(alloc: Global, kind: ImageKind, name: &Name) -> Result<Text, NoMemory>
    ensures { IfOk result (λ t. t ≡ image_name kind name.now) }
{
    named(alloc, name, ending(kind))
}

/// The name of its draft.
#[tactic(auto, unfolding(store_spec::specs::ImageSteps::image_draft))]
pub(crate) fn image_draft(alloc: Global, name: &Name) -> Result<Text, NoMemory>
    ensures { IfOk result (λ t. t ≡ image_draft name.now) }
{
    named(alloc, name, ".part")
}
