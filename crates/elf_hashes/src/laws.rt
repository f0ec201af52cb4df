//! What is proved of the tables and of the order. The functions do nothing: each stands for the law that is its contract.
ghost use Rattle.elf_hashes.specs.Gabi.{GabiTablesFind};
ghost use Rattle.elf_hashes.specs.Gnu.{GnuTablesFind};
ghost use Rattle.elf_hashes.specs.Order.{OrdersByBucket};
ghost use Rattle.elf_hashes.specs.Sizes.{HashTablesAreSized};

/// Look-ups in the gABI's table find exactly the symbols that are defined, not local and not the first.
#[tactic(auto, using(crate::proofs::GabiLaws::gabi_tables_find))]
pub fn gabi_tables_find()
    ensures { GabiTablesFind }
{}

/// Look-ups in the GNU table find exactly those symbols, where they stand by rising buckets.
#[tactic(auto, using(crate::proofs::GnuLaws::gnu_tables_find))]
pub fn gnu_tables_find()
    ensures { GnuTablesFind }
{}

/// The order by buckets lists each symbol once, group by group, and in it symbols stand by rising buckets.
#[tactic(auto, using(crate::proofs::OrderLaws::orders_by_bucket))]
pub fn orders_by_bucket()
    ensures { OrdersByBucket }
{}

/// Hash tables are as long as their numbers of buckets, filter words and symbols make them.
#[tactic(auto, using(crate::proofs::SizeLaws::hash_tables_are_sized))]
pub fn hash_tables_are_sized()
    ensures { HashTablesAreSized }
{}
