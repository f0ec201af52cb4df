//! Small files, and what the definitions answer for them. The functions do nothing: the contract of each is
//! computed.
ghost use Rattle.test_elf_plain.specs.Rows.{ChangedSmallRows, HashRows, LookUpRows, MovedRows, SmallRows, VersionedRows, all_truncated, versioned32, versioned64};
ghost use Rattle.test_elf_plain.specs.RuleRows.{ApartRows, ClearRows, DynamicRows, FileKindRows, HeaderTableRows, IdentificationRows, InterpreterRows, LinkedRows, LoadedRows, RangeRows, TableRows, TextRows, VersionRows};
ghost use Rattle.test_elf_plain.specs.EdgeRows.{EntryRows, KindRows, LoaderRows, OrderRows};
ghost use Rattle.test_elf_plain.specs.LinkedLibrary.{LinkedLibraryRows};
ghost use Rattle.test_elf_plain.specs.Vectors.{small_file, small_library, small_twin};
ghost use Rattle.std.specs.Prelude.{◌≡◌, true};

/// A library of 608 bytes with a dynamic list, and its twin of 364 bytes in 32 bits, the highest byte first.
pub fn small_libraries()
    ensures library { SmallRows small_library 608 }
    ensures twin { SmallRows small_twin 364 }
{}

/// One change in either, and the fault that it gives.
pub fn changed_small_libraries()
    ensures library { ChangedSmallRows small_library }
    ensures twin { ChangedSmallRows small_twin }
{}

/// Hashes of names, by the gABI and by GNU.
pub fn hash_rows()
    ensures { HashRows }
{}

/// Look-ups in small hash tables.
pub fn look_up_rows()
    ensures { LookUpRows }
{}

/// A library with symbols and versions, in both classes and byte orders.
pub fn versioned_libraries()
    ensures little64 { VersionedRows versioned64 }
    ensures big32 { VersionedRows versioned32 }
{}

/// Every front of the small library and of its twin that leaves bytes out is refused as truncated.
pub fn truncated_rows()
    ensures library { all_truncated 608 (small_file small_library) ≡ true }
    ensures twin { all_truncated 364 (small_file small_twin) ≡ true }
{}

/// The small library at the top of memory.
pub fn moved_rows()
    ensures { MovedRows }
{}

/// Before the rules: identification and header.
pub fn identification_rows()
    ensures { IdentificationRows }
{}

/// The first rule: a program or a shared library with plain numbering.
pub fn file_kind_rows()
    ensures { FileKindRows }
{}

/// The second rule: ranges in the file.
pub fn range_rows()
    ensures { RangeRows }
{}

/// The third rule: segments apart.
pub fn apart_rows()
    ensures { ApartRows }
{}

/// The fourth rule: sections loaded.
pub fn loaded_rows()
    ensures { LoadedRows }
{}

/// The fifth rule: uninitialized data clear of file ends.
pub fn clear_rows()
    ensures { ClearRows }
{}

/// The sixth rule: one of each and linked.
pub fn linked_rows()
    ensures { LinkedRows }
{}

/// The seventh rule: dynamic section agrees.
pub fn dynamic_rows()
    ensures { DynamicRows }
{}

/// The eighth rule: interpreter agrees.
pub fn interpreter_rows()
    ensures { InterpreterRows }
{}

/// The ninth rule: dynamic tables agree.
pub fn table_rows()
    ensures { TableRows }
{}

/// The tenth rule: texts end.
pub fn text_rows()
    ensures { TextRows }
{}

/// The eleventh rule: versions.
pub fn version_rows()
    ensures { VersionRows }
{}

/// The twelfth rule: header table loaded.
pub fn header_table_rows()
    ensures { HeaderTableRows }
{}

/// Files that break two rules: the first one answers.
pub fn order_rows()
    ensures { OrderRows }
{}

/// Sections of rarer kinds.
pub fn kind_rows()
    ensures { KindRows }
{}

/// Which dynamic tags hold texts, which tables, and which numbers.
pub fn entry_rows()
    ensures { EntryRows }
{}

/// What a loader sees of files that are not accepted.
pub fn loader_rows()
    ensures { LoaderRows }
{}

/// A library with symbols, versions and both hash tables as a linker makes it.
pub fn linked_library_rows()
    ensures { LinkedLibraryRows }
{}
