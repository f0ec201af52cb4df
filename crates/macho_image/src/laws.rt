//! What it means that a file is accepted. Each law is the contract of a function that does nothing.
ghost use Rattle.macho_image.specs.Laws.{AcceptedIsFatFile, AcceptedIsFile, FatFileIsAccepted, FileIsAccepted, FirstContentIsLeast};

/// A thin file without a fault is a file of the form that its magic tells with the load commands that it
/// shows; and what is a file of a form with load commands has no fault, this form and these commands.
pub fn accepted_files_are_files()
    ensures found { AcceptedIsFile }
    ensures only { FileIsAccepted }
{}

/// A fat file whose table has no fault is a fat file with the slices that the table tells; and what is a
/// fat file with slices has no fault in its table, and these slices.
pub fn accepted_tables_are_fat_files()
    ensures found { AcceptedIsFatFile }
    ensures only { FatFileIsAccepted }
{}

/// Content begins at the file's end or where some load command says, and no earlier: the first content is at
/// most the length and each offset that a command names, and is one of them.
pub fn first_content_is_least()
    ensures { FirstContentIsLeast }
{}
