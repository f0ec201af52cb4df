//! What is proved of the edits themselves. The functions do nothing: each stands for the law that is its contract.
ghost use Rattle.elf_symbol_edits.specs.Laws.{EditsAreDecided, RenamesAreAtOnce, SymbolEditsKeep, SymbolEditsShow, SymbolsGoByName};

/// An edit gives the edited image, or is refused with the first cause.
#[tactic(auto, using(crate::proofs::DecidedLaws::edits_are_decided))]
pub fn edits_are_decided()
    ensures { EditsAreDecided }
{}

/// What no edit changes.
#[tactic(auto, using(crate::proofs::KeptLaws::symbol_edits_keep))]
pub fn symbol_edits_keep()
    ensures { SymbolEditsKeep }
{}

/// Names are given all at once: a map can swap two, and swapped twice all are as they were.
#[tactic(auto, using(crate::proofs::RenameLaws::renames_are_at_once))]
pub fn renames_are_at_once()
    ensures { RenamesAreAtOnce }
{}

/// Exactly the symbols with some names go, but the first, and the others stay in their order.
#[tactic(auto, using(crate::proofs::ByNameLaws::symbols_go_by_name))]
pub fn symbols_go_by_name()
    ensures { SymbolsGoByName }
{}

/// What an image shows after each edit: just `shown_after`.
#[tactic(auto, using(crate::proofs::ShownLaws::symbol_edits_show))]
pub fn symbol_edits_show()
    ensures { SymbolEditsShow }
{}
