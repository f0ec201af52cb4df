//! Relocations whose symbols get other numbers. The function does nothing: its contract is computed.
ghost use Rattle.elf_write_spec.specs.Rows.{RelocationRows};

/// Relocations before and after, and numbers that don't fit.
pub fn relocation_rows()
    ensures { RelocationRows }
{}
