//! What pieces that are laid over bytes leave, position by position. Each law is the contract of a
//! function that does nothing.
ghost use Rattle.byte_store.specs.Laws.{LaidHoldsInside, LaidKeepsLength, LaidKeepsOutside};

/// Pieces within the bytes keep their number, and each byte outside them; a position in a piece, and
/// outside those behind it, has the piece's byte.
pub fn laid_by_position()
    ensures length { LaidKeepsLength }
    ensures outside { LaidKeepsOutside }
    ensures inside { LaidHoldsInside }
{}
