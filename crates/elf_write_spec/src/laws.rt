//! What is proved of written files. The functions do nothing: each stands for the law that is its contract.
ghost use Rattle.elf_write_spec.specs.Laws.{PlansAreApartInFile, WrittenFilesAreRead, WrittenFilesFindNames, WrittenFilesHaveParts, WrittenFilesKeepData, WrittenFilesKeepHashes, WrittenFilesKeepOthers, WrittenFilesKeepSymbols, WrittenFilesShow};

/// In each plan of an edited image headers, tables and sections share no byte of the file.
#[tactic(auto, using(crate::proofs::ApartInFile::plans_are_apart_in_file))]
pub fn plans_are_apart_in_file()
    ensures { PlansAreApartInFile }
{}

/// A written file has the parts that were written.
#[tactic(auto, using(crate::proofs::FileParts::written_files_have_parts))]
pub fn written_files_have_parts()
    ensures { WrittenFilesHaveParts }
{}

/// A written file is accepted, and reading it gives the image in its final form.
#[tactic(auto, using(crate::proofs::FilesReadBack::written_files_are_read))]
pub fn written_files_are_read()
    ensures { WrittenFilesAreRead }
{}

/// A written file shows the edited lists, to a loader too.
#[tactic(auto, using(crate::proofs::FilesReadBack::written_files_show))]
pub fn written_files_show()
    ensures { WrittenFilesShow }
{}

/// Data stands at its address in a written file.
#[tactic(auto, using(crate::proofs::DataSeen::written_files_keep_data))]
pub fn written_files_keep_data()
    ensures { WrittenFilesKeepData }
{}

/// Every other byte keeps its value and its address in a written file.
#[tactic(auto, using(crate::proofs::DataSeen::written_files_keep_others))]
pub fn written_files_keep_others()
    ensures { WrittenFilesKeepOthers }
{}

/// Hash tables stand, as they were read, where the dynamic list says, if the names of the dynamic symbols are those that were
/// read.
#[tactic(auto, using(crate::proofs::DataSeen::written_files_keep_hashes))]
pub fn written_files_keep_hashes()
    ensures { WrittenFilesKeepHashes }
{}

/// Where the names of dynamic symbols changed, look-ups in hash tables find exactly the symbols
/// that are defined and not local, by the names that they have now.
#[tactic(auto, using(crate::proofs::NamesFound::written_files_find_names))]
pub fn written_files_find_names()
    ensures { WrittenFilesFindNames }
{}

/// Each dynamic symbol of the image stands at its new number.
#[tactic(auto, using(crate::proofs::SymbolsKept::written_files_keep_symbols))]
pub fn written_files_keep_symbols()
    ensures { WrittenFilesKeepSymbols }
{}
