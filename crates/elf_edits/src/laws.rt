//! What is proved of the edits themselves. The functions do nothing: each stands for the law that is its contract.
ghost use Rattle.elf_edits.specs.Laws.{BatchesAreTheirEdits, EditsShow, LibrariesAreReplacedAtOnce, ListsOfBatches, MapsAtOnce, OthersStayInOrder, RunPathsAreSet, SymbolsAreRenamedAtOnce, TwiceIsOnce};

/// An edited image shows the edited view, and all that edits leave is as it was.
#[tactic(auto, using(crate::proofs::ShownLaws::edits_show))]
pub fn edits_show()
    ensures { EditsShow }
{}

/// A batch is its edits, one after the other.
#[tactic(auto, using(crate::proofs::BatchLaws::batches_are_their_edits))]
pub fn batches_are_their_edits()
    ensures { BatchesAreTheirEdits }
{}

/// A list of batches is one batch after the other.
#[tactic(auto, using(crate::proofs::BatchLaws::lists_of_batches))]
pub fn lists_of_batches()
    ensures { ListsOfBatches }
{}

/// DT_RPATH in place of DT_RUNPATH, no default directories and an entry for a debugger: twice is as once.
#[tactic(auto, using(crate::proofs::TwiceLaws::twice_is_once))]
pub fn twice_is_once()
    ensures { TwiceIsOnce }
{}

/// Where the run path is set, every entry with one has the text, and there is one.
#[tactic(auto, using(crate::proofs::EntryLaws::run_paths_are_set))]
pub fn run_paths_are_set()
    ensures { RunPathsAreSet }
{}

/// Needed libraries that are dropped leave all other entries in their order.
#[tactic(auto, using(crate::proofs::EntryLaws::others_stay_in_order))]
pub fn others_stay_in_order()
    ensures { OthersStayInOrder }
{}

/// A map from names to names is applied all at once: it can swap two.
#[tactic(auto, using(crate::proofs::EntryLaws::maps_at_once))]
pub fn maps_at_once()
    ensures { MapsAtOnce }
{}

/// A library that is replaced is replaced wherever it is named, and all at once.
#[tactic(auto, using(crate::proofs::NeedLaws::libraries_are_replaced_at_once))]
pub fn libraries_are_replaced_at_once()
    ensures { LibrariesAreReplacedAtOnce }
{}

/// Dynamic symbols are renamed all at once; twice swapped, they are shown as they were.
#[tactic(auto, using(crate::proofs::SymbolLaws::symbols_are_renamed_at_once))]
pub fn symbols_are_renamed_at_once()
    ensures { SymbolsAreRenamedAtOnce }
{}
