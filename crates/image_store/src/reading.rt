// Images' files are read.
ghost use Rattle.std.specs.Prelude.{◌≡◌, ◌==◌, ◌<◌, ◌≤◌, ◌^◌, ◌||◌, IfOk, None, Some, drop, length, nat_le, take};
ghost use Rattle.virt_types.specs.declared.ask.ImageKind.TheVariants as kind;
ghost use Rattle.std.specs.Str.{is_utf8};
ghost use Rattle.store_spec.specs.ImageFile as spec;
ghost use Rattle.image_store.specs.Reading.{IsReadAs};

use crate::spelling::MAGIC;
use std::alloc::Global;
use std::str;
use store_spec::{Image, ImageField};
use virt_types::{Bytes, ImageKind, MOST_TEXT_BYTES, NoMemory, Text};

const FIELDS: [ImageField; 8] = [
    ImageField::Magic,
    ImageField::Version,
    ImageField::Kind,
    ImageField::Running,
    ImageField::Packed,
    ImageField::Text,
    ImageField::State,
    ImageField::End,
];

// The word at a place, where it is there.
#[tactic(auto, unfolding(store_spec::specs::ImageFile::word_at))]
fn word_at(bytes: &[u8], place: usize) -> Option<u32>
    requires { place ≤ 24 }
    ensures { result ≡ spec.word_at place bytes.now }
{
    if bytes.len() < place + 4 {
        return None;
    }
    let (word, _rest) = bytes.split_at(place).1.split_at(4);
    Some(u32::from_be_bytes([word[0], word[1], word[2], word[3]]))
}

// The word at a place is one of these.
fn is_either(bytes: &[u8], place: usize, one: u32, other: u32) -> bool
    requires { place ≤ 24 }
    ensures { result ≡ spec.passes (λ n. n == one || n == other) (spec.word_at place bytes.now) }
{
    match word_at(bytes, place) {
        Some(word) => word == one || word == other,
        None => false,
    }
}

// The word at a place is this.
fn is_word(bytes: &[u8], place: usize, number: u32) -> bool
    requires { place ≤ 24 }
    ensures { result ≡ spec.passes (λ n. n == number) (spec.word_at place bytes.now) }
{
    match word_at(bytes, place) {
        Some(word) => word == number,
        None => false,
    }
}

// The word at a place as a length; nothing where it is absent.
fn length_at(bytes: &[u8], place: usize) -> usize
    requires { place ≤ 24 }
    ensures value { result ≡ spec.or_nothing (spec.word_at place bytes.now) }
    ensures fits { result < 2 ^ 32 }
{
    match word_at(bytes, place) {
        Some(word) => word as usize,
        None => 0,
    }
}

// What comes after so many bytes.
fn after(bytes: &[u8], count: usize) -> &[u8]
    ensures { result.now ≡ drop count bytes.now }
{
    bytes.split_at(count.min(bytes.len())).1
}

// What comes after the words.
fn parts(bytes: &[u8]) -> &[u8]
    ensures { result.now ≡ spec.parts bytes.now }
{
    after(bytes, 28)
}

// What comes after the text.
fn behind_text(bytes: &[u8]) -> &[u8]
    ensures { result.now ≡ spec.behind_text bytes.now }
{
    after(parts(bytes), length_at(bytes, 20))
}

// So many bytes are there, and they are a text.
fn is_text(bytes: &[u8], count: usize) -> bool
    ensures { result ≡ spec.is_text bytes.now count }
{
    count <= MOST_TEXT_BYTES && count <= bytes.len() && is_utf8(bytes.split_at(count).0)
}

fn is_utf8(bytes: &[u8]) -> bool
    ensures { result ≡ is_utf8 bytes.now }
{
    match str::from_utf8(bytes) {
        Ok(_) => true,
        Err(_) => false,
    }
}

// The field is as it is in an image's file.
#[tactic(auto, unfolding(store_spec::specs::ImageFile::is_right))]
fn is_right(bytes: &[u8], field: ImageField) -> bool
    ensures { result ≡ spec.is_right bytes.now field }
{
    match field {
        ImageField::Magic => is_word(bytes, 0, MAGIC),
        ImageField::Version => is_word(bytes, 4, 1),
        ImageField::Kind => is_either(bytes, 8, 1, 2),
        ImageField::Running => is_either(bytes, 12, 0, 1),
        ImageField::Packed => is_word(bytes, 16, 0),
        ImageField::Text => has_text(bytes),
        ImageField::State => has_state(bytes),
        ImageField::End => length_at(bytes, 24) == behind_text(bytes).len(),
    }
}

// The text has the length that is told, and is one.
fn has_text(bytes: &[u8]) -> bool
    ensures { result ≡ spec.passes (spec.is_text (spec.parts bytes.now)) (spec.word_at 20 bytes.now) }
{
    match word_at(bytes, 20) {
        Some(word) => is_text(parts(bytes), word as usize),
        None => false,
    }
}

// The state is there.
fn has_state(bytes: &[u8]) -> bool
    ensures { result ≡ spec.passes (λ n. nat_le n (length (spec.behind_text bytes.now))) (spec.word_at 24 bytes.now) }
{
    match word_at(bytes, 24) {
        Some(word) => word as usize <= behind_text(bytes).len(),
        None => false,
    }
}

// The first field that is wrong.
#[tactic(auto, unfolding(store_spec::specs::ImageFile::wrong_field))]
fn wrong_field(bytes: &[u8]) -> Option<ImageField>
    ensures { result ≡ spec.wrong_field bytes.now }
{
    FIELDS
        .iter()
        .copied()
        .find(|field| !is_right(bytes, *field))
}

/// The image that a file of these bytes holds, or the first field that is wrong.
pub(crate) fn read(alloc: Global, bytes: &[u8]) -> Result<Result<Image, ImageField>, NoMemory>
    ensures { IfOk result (IsReadAs bytes.now) }
{
    if let Some(field) = wrong_field(bytes) {
        return Ok(Err(field));
    }
    image_of(alloc, bytes)
}

// So many bytes, or all.
fn front(bytes: &[u8], count: usize) -> &[u8]
    ensures { result.now ≡ take count bytes.now }
{
    bytes.split_at(count.min(bytes.len())).0
}

// The kind that is told, where one is.
fn kind_of(bytes: &[u8]) -> ImageKind
    ensures save { spec.word_at 8 bytes.now ≡ Some 1 → result ≡ kind.Save }
    ensures dump { spec.word_at 8 bytes.now ≡ Some 2 → result ≡ kind.Dump }
{
    if is_word(bytes, 8, 1) {
        return ImageKind::Save;
    }
    ImageKind::Dump
}

// The image of bytes in which no field is wrong.
fn image_of(alloc: Global, bytes: &[u8]) -> Result<Result<Image, ImageField>, NoMemory>
    requires { spec.wrong_field bytes.now ≡ None }
    ensures { IfOk result (IsReadAs bytes.now) }
{
    let kind = kind_of(bytes);
    let running = length_at(bytes, 12) == 1;
    let saved = front(behind_text(bytes), length_at(bytes, 24));
    match str::from_utf8(front(parts(bytes), length_at(bytes, 20))) {
        Ok(text) => {
            let text = Text::copy_of(alloc, text)?;
            let saved = Bytes::copy_of(alloc, saved)?;
            Ok(Ok(Image {
                kind,
                running,
                text,
                saved,
            }))
        }
        Err(_) => Ok(Err(ImageField::Text)),
    }
}
