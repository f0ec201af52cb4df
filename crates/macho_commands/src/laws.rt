//! Laws of what commands make of files, and leave of code signatures. Each is the contract of a function that does nothing.
ghost use Rattle.macho_commands.specs.Fitting.{EditKeepsSignatures, EditTellsPlace};
ghost use Rattle.macho_commands.specs.Fitting.{ReadEditKeepsSignatures};
ghost use Rattle.macho_commands.specs.Fitting.{SigningFits, SigningReads, SigningTellsSame};
ghost use Rattle.macho_commands.specs.Fitting.{SigningVerifies, WholeFits};
ghost use Rattle.macho_commands.specs.Loading.{FrontDecides, FrontShows, FrontTellsSigned};

/// Where all pages of a file's ad-hoc signatures fit, they all fit in the bytes that a command makes of it which makes
/// slots anew, by the same directories. `sign` makes them fit whether they did or not. The new signatures are read
/// again, where no identifier stands in slots.
pub fn signatures_fit_again()
    ensures fits { SigningFits }
    ensures same { SigningTellsSame }
    ensures verifies { SigningVerifies }
    ensures reads { SigningReads }
    ensures whole { WholeFits }
{}

/// An edit leaves where the load commands say that a signature lies. One that makes no slots anew leaves its bytes
/// and what they tell, where it begins behind the first content, and wherever it is read again.
pub fn edits_keep_signatures()
    ensures place { EditTellsPlace }
    ensures same { EditKeepsSignatures }
    ensures read { ReadEditKeepsSignatures }
{}

/// What edits make of a thin file that is not too long depends on its front alone: on its first bytes, which are a thin
/// file by themselves in which content begins. New bytes have the rest of the file behind them, and show the same; and the front
/// tells whether the file is signed.
pub fn front_decides()
    ensures decides { FrontDecides }
    ensures shows { FrontShows }
    ensures signed { FrontTellsSigned }
{}
