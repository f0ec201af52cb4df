//! A small signature and what is wrong with others. The function does nothing: its contract is computed.
ghost use Rattle.macho_signatures.specs.Rows.{SignatureRows};

/// Signatures with each fault, one that is accepted, and its pages.
pub fn signature_rows()
    ensures { SignatureRows }
{}
