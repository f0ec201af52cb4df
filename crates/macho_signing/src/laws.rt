//! Laws of signed files. Each is the contract of a function that does nothing.
ghost use Rattle.macho_signing.specs.Laws.{SignedFit};

/// Where all slots fitted before an edit, and the slots of the pages that it touched were made anew, all fit again.
pub fn signed_files_fit()
    ensures { SignedFit }
{}
