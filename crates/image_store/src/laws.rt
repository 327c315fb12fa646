// Laws of images: each function's contract is one, and its body does nothing.
ghost use Rattle.image_store.specs.Laws.{FieldsAreNamed, HoldsOneImage, ImagesAreRight, ImagesReadBack, ImagesStay, SpellsItsImage};

/// In the file of an image no field is wrong.
pub fn images_are_right()
    ensures { ImagesAreRight }
{}

/// A file holds one image.
pub fn holds_one_image()
    ensures { HoldsOneImage }
{}

/// The bytes of one file.
pub fn spells_its_image()
    ensures { SpellsItsImage }
{}

/// An image that was written is there, whatever is done to other files then, and after a crash too.
pub fn images_stay()
    ensures { ImagesStay }
{}

/// What is read of the file of an image is that image.
pub fn images_read_back()
    ensures { ImagesReadBack }
{}

/// A file in which one word is wrong, or whose end is, is wrong in that field.
pub fn fields_are_named()
    ensures { FieldsAreNamed }
{}
