//! Symbols under edits. The function does nothing: its contract is computed.
ghost use Rattle.elf_image_symbols.specs.Rows.{EditRows};

/// Symbols under edits.
pub fn edit_rows()
    ensures { EditRows }
{}
