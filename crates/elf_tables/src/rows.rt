//! Names with their hashes, and lists of texts with the lengths of their tables. The functions do nothing: the contract
//! of each is computed.
ghost use Rattle.elf_tables.specs.Rows.{HashRows, TableRows};

/// Names with their hashes.
pub fn hash_rows()
    ensures { HashRows }
{}

/// Lists of texts with the lengths of their tables.
pub fn table_rows()
    ensures { TableRows }
{}
