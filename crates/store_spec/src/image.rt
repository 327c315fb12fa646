// Images of guests: what a file of a save or a dump holds.
use virt_types::{Bytes, ImageKind, NoMemory, Text, TryCopy, both};

/// The image of a guest: its definition and its state.
#[derive(Drop)]
pub struct Image {
    /// What it was made by.
    pub kind: ImageKind,
    /// Whether the guest ran.
    pub running: bool,
    /// The text of the guest's definition.
    pub text: Text,
    /// The state of the guest.
    pub saved: Bytes,
}

impl TryCopy for Image {
    fn copy(&self) -> Result<Image, NoMemory> {
        let (text, saved) = both(self.text.copy(), self.saved.copy())?;
        Ok(Image {
            kind: self.kind,
            running: self.running,
            text,
            saved,
        })
    }
}

/// A field of an image's file, in the order in which they are tested.
#[derive(Clone, Copy, Debug, PartialEq, Eq)]
pub enum ImageField {
    /// The word that says that this is an image.
    Magic,
    /// The version of the file.
    Version,
    /// The kind of the image.
    Kind,
    /// Whether the guest ran.
    Running,
    /// How the state is packed: not at all.
    Packed,
    /// The text: its length, at most 65,536, and its bytes, which are UTF-8.
    Text,
    /// The state: its length and its bytes.
    State,
    /// The end: nothing comes after the state.
    End,
}

/// Why an image was not read.
#[derive(Clone, Copy, Debug, PartialEq, Eq)]
pub enum ImageFault {
    /// The store failed.
    Device,
    /// There is no file of that name.
    NoImage,
    /// The file is no image.
    BadImage {
        /// The first field that is wrong.
        field: ImageField,
    },
}
