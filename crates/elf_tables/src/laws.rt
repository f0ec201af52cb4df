//! What is proved of spelled records. The functions do nothing: each stands for the law that is its contract.
ghost use Rattle.elf_tables.specs.ReadBack.{EntriesAreReadBack, FileHeadersAreReadBack, FilesAreOpened, SectionHeadersAreReadBack, SegmentHeadersAreReadBack, SymbolsAreReadBack, TablesAreReadBack};

/// A file header is read back from its bytes.
#[tactic(auto, using(crate::proofs::FileHeaderBack::file_headers_are_read_back))]
pub fn file_headers_are_read_back()
    ensures { FileHeadersAreReadBack }
{}

/// A program header is read back from its bytes.
#[tactic(auto, using(crate::proofs::SegmentHeaderBack::segment_headers_are_read_back))]
pub fn segment_headers_are_read_back()
    ensures { SegmentHeadersAreReadBack }
{}

/// A section header is read back from its bytes.
#[tactic(auto, using(crate::proofs::SectionHeaderBack::section_headers_are_read_back))]
pub fn section_headers_are_read_back()
    ensures { SectionHeadersAreReadBack }
{}

/// A symbol is read back from its bytes.
#[tactic(auto, using(crate::proofs::SymbolBack::symbols_are_read_back))]
pub fn symbols_are_read_back()
    ensures { SymbolsAreReadBack }
{}

/// A dynamic entry is read back from its bytes.
#[tactic(auto, using(crate::proofs::EntryBack::entries_are_read_back))]
pub fn entries_are_read_back()
    ensures { EntriesAreReadBack }
{}

/// Tables of records are read back from their bytes.
pub fn tables_are_read_back()
    ensures { TablesAreReadBack }
{}

/// A file that begins with a header's bytes is opened with that header.
#[tactic(auto, using(crate::proofs::FilesOpened::files_are_opened))]
pub fn files_are_opened()
    ensures { FilesAreOpened }
{}
