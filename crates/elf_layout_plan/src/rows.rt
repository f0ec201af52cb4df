//! Small images, edited, and where everything of them goes. The functions do nothing: the contract of each is computed.
ghost use Rattle.elf_layout_plan.specs.AgainRows.{AgainRows};
ghost use Rattle.elf_layout_plan.specs.RelroRows.{RelroRows};
ghost use Rattle.elf_layout_plan.specs.Rows.{HighRows, NoteRows, StartRows, TableRows};
ghost use Rattle.elf_layout_plan.specs.SmallRows.{SectionRows, SmallRows};

/// A small library with a longer run path, a name, a program header more.
pub fn small_rows()
    ensures { SmallRows }
{}

/// A program whose interpreter's name stands behind its program headers.
pub fn start_rows()
    ensures { StartRows }
{}

/// The address of an added segment.
pub fn high_rows()
    ensures { HighRows }
{}

/// Sections that aren't loaded, or are empty.
pub fn section_rows()
    ensures { SectionRows }
{}

/// A library that was edited before, and one at the end of memory.
pub fn again_rows()
    ensures { AgainRows }
{}

/// A library whose dynamic section moves, alone or with its strings, and whose PT_GNU_RELRO stays.
pub fn relro_rows()
    ensures { RelroRows }
{}

/// Several notes under one program header, some of which move.
pub fn note_rows()
    ensures { NoteRows }
{}

/// A program header for the program header table, over a section and over none.
pub fn table_rows()
    ensures { TableRows }
{}
