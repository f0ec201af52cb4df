//! Edits of symbols and sections, with their texts.
ghost use Rattle.std.specs.Prelude.{◌≡◌};
ghost use Rattle.elf_symbol_edits.specs.EditModel.{edit_model};
ghost use Rattle.elf_commands_lines.specs.SymbolTexts.{symbol_texts_model};

use elf_symbol_edits::SymbolEdit;

/// An edit of symbols or sections, as a command asks for it.
#[derive(Drop)]
pub enum SymbolTexts {
    /// The symbols for link editors and for the loader get other names.
    RenameSymbols(Vec<(Vec<u8>, Vec<u8>)>),
    /// Those of some names go.
    DeleteSymbols(Vec<Vec<u8>>),
    /// Sections get other names.
    RenameSections(Vec<(Vec<u8>, Vec<u8>)>),
    /// Those of some names go.
    DeleteSections(Vec<Vec<u8>>),
}

impl SymbolTexts {
    /// The edit.
    pub fn edit(&self) -> SymbolEdit<'_>
        ensures { edit_model result ≡ symbol_texts_model self.now }
    {
        match self {
            SymbolTexts::RenameSymbols(pairs) => SymbolEdit::RenameAllSymbols(pairs.as_slice()),
            SymbolTexts::DeleteSymbols(names) => SymbolEdit::DeleteAllSymbols(names.as_slice()),
            SymbolTexts::RenameSections(pairs) => SymbolEdit::RenameSections(pairs.as_slice()),
            SymbolTexts::DeleteSections(names) => SymbolEdit::DeleteSections(names.as_slice()),
        }
    }
}
