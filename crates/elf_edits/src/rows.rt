//! Small lists and images, and what the edits make of them. The functions do nothing: the contract of each is
//! computed.
ghost use Rattle.elf_edits.specs.Rows.{AbiRows, BatchRows, InterpreterRows, MarkRows, NeededRows, OtherEntryRows, PageRows, RefusalRows, RunPathRows, StackRows, SymbolRows, SymbolStepRows};

/// Run paths, needed libraries and the other entries.
pub fn list_rows()
    ensures run_paths { RunPathRows }
    ensures needed { NeededRows }
    ensures others { OtherEntryRows }
{}

/// Names of ABIs, interpreters, the stack, page sizes.
pub fn value_rows()
    ensures abi { AbiRows }
    ensures interpreter { InterpreterRows }
    ensures stack { StackRows }
    ensures pages { PageRows }
{}

/// Causes, and which one comes first; which edits mark an image as changed.
pub fn refusal_rows()
    ensures causes { RefusalRows }
    ensures marks { MarkRows }
{}

/// Batches, and lists of batches.
pub fn batch_rows()
    ensures { BatchRows }
{}

/// Dynamic symbols.
pub fn symbol_rows()
    ensures symbols { SymbolRows }
    ensures steps { SymbolStepRows }
{}
