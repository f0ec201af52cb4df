//! Laws of signatures. Each is the contract of a function that does nothing.
ghost use Rattle.macho_signatures.specs.Laws.{RenewedFit};

/// Where all slots fitted before an edit, and the slots of the pages that it touched were made anew, all fit again.
pub fn renewed_signatures_fit()
    ensures { RenewedFit }
{}
