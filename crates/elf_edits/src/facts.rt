use elf_image_symbols::SymbolsNow;

/// What of an image decides whether an edit is refused.
#[derive(Clone, Copy)]
pub struct Facts<'i> {
    /// The machine (gABI, ELF Header, `e_machine`).
    pub machine: u16,
    /// Whether there is a dynamic section.
    pub has_list: bool,
    /// Whether the dynamic list has a run path.
    pub has_run_path: bool,
    /// Whether there is an interpreter.
    pub has_interpreter: bool,
    /// Whether there is no program header for the stack, and no room for one.
    pub is_full: bool,
    /// The dynamic symbols, where all but the first have to keep their names: hash tables or relocations can't follow.
    pub fixed_symbols: Option<SymbolsNow<'i>>,
}
