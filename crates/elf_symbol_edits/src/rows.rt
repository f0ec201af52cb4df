//! Small images, and what the edits make of them. The functions do nothing: the contract of each is computed.
ghost use Rattle.elf_symbol_edits.specs.Rows.{AlongRows, BothRows, RefusalRows, SectionRows, SymbolRows};

/// Sections that get other names, or go, with what goes along.
pub fn section_rows()
    ensures sections { SectionRows }
    ensures along { AlongRows }
{}

/// Symbols that get other names, or go.
pub fn symbol_rows()
    ensures symbols { SymbolRows }
    ensures both { BothRows }
{}

/// Causes, and which one comes first.
pub fn refusal_rows()
    ensures { RefusalRows }
{}
