//! What is known of images. Each law is the contract of a function that does nothing.
ghost use Rattle.elf_image.specs.ReadImage.{ReadImagesHoldParts};

/// The image of an accepted file holds the file's parts, of which each read rule is true: its sections are those of
/// the section headers, with their names, kinds and bytes, its symbols those of the symbol tables, with their names.
pub fn read_images_hold_parts()
    ensures { ReadImagesHoldParts }
{}
