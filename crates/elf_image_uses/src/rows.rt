//! Small images and tables. The function does nothing: its contract is computed.
ghost use Rattle.elf_image_uses.specs.Rows.{UsesRows};

/// Hash tables, users of tables, relocations and sections, and what stands in their way or goes along.
pub fn uses_rows()
    ensures { UsesRows }
{}
