/// A range of memory that something takes, and how readily that moves.
#[derive(Clone, Copy, Debug, PartialEq, Eq)]
pub struct Block {
    /// The first address of the block.
    pub start: u64,
    /// How many bytes the block takes. It may end past the last address of 64 bits.
    pub size: u64,
    /// 0 where it can't move. Of two that overlap the one with the greater number moves, of two equal ones the earlier.
    pub priority: u8,
}
