//! Symbols with their hash tables. The function does nothing: its contract is computed.
ghost use Rattle.elf_hashes.specs.Rows.{HashTableRows};

/// Symbols with their hash tables.
pub fn hash_table_rows()
    ensures { HashTableRows }
{}
