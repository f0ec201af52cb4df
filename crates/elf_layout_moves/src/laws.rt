//! What is proved of a program header table that gets longer. The functions do nothing: each stands for the law that is its
//! contract.
ghost use Rattle.elf_layout_moves.specs.Growth.{LongerTablesFit, LongerTablesMayMove, LongerTablesMove};

/// A longer table moves the sections that it swallows, and those that moved before.
pub fn longer_tables_move()
    ensures { LongerTablesMove }
{}

/// With a longer table, blocks that can't move are still apart.
pub fn longer_tables_fit()
    ensures { LongerTablesFit }
{}

/// The sections that a longer table moves, in the order in which they stood, are a list of sections
/// that may move.
pub fn longer_tables_may_move()
    ensures { LongerTablesMayMove }
{}
