// The first two blocks of a list that overlap and never move.
ghost use Rattle.std.specs.Prelude.{◌≡◌, ◌+◌, nat_lt};
ghost use Rattle.elf_layout_plan.specs.Blocks.{is_earlier as earlier_of, is_kept_out as kept_out, is_stuck_pair as stuck, overlaps as overlapping};
ghost use Rattle.elf_layout_reasons.specs.Stuck.{first_pair as pair_of, first_partner as partner_of};

use elf_layout_moves::blocks::MemoryBlock;

// Whether the first of two blocks is the earlier one.
fn is_earlier(a: MemoryBlock, b: MemoryBlock) -> bool
    ensures { result ≡ earlier_of a b }
{
    a.start < b.start
        || a.start == b.start && (a.size < b.size || a.size == b.size && a.rank() <= b.rank())
}

// Whether one of two blocks is the start of a loaded segment, and the other one is displaced.
fn is_kept_out(a: MemoryBlock, b: MemoryBlock) -> bool
    ensures { result ≡ kept_out a b }
{
    a.is_displaced && b.is_load_start || a.is_load_start && b.is_displaced
}

// Whether a block ends past the start of another one.
fn is_over_start(a: MemoryBlock, b: MemoryBlock) -> bool
    ensures { result ≡ nat_lt b.start (a.start + a.size) }
{
    b.start < a.start || b.start - a.start < a.size
}

// Whether two blocks overlap, the first being the earlier one.
fn overlaps(earlier: MemoryBlock, later: MemoryBlock) -> bool
    ensures { result ≡ overlapping earlier later }
{
    is_earlier(earlier, later) && (is_over_start(earlier, later) || is_kept_out(earlier, later))
}

// Whether two blocks overlap and neither can move, the first being the earlier one.
fn is_stuck_pair(earlier: MemoryBlock, later: MemoryBlock) -> bool
    ensures { result ≡ stuck earlier later }
{
    overlaps(earlier, later) && earlier.priority == 0 && later.priority == 0
}

// A block and the first of others that overlaps it where neither can move, the earlier one first.
#[tactic(auto, unfolding(crate::specs::Stuck::first_partner))]
fn first_partner(block: MemoryBlock, others: &[MemoryBlock]) -> Option<(MemoryBlock, MemoryBlock)>
    ensures { result ≡ partner_of block others.now }
{
    for other in others {
        if is_stuck_pair(block, *other) {
            return Some((block, *other));
        }
        if is_stuck_pair(*other, block) {
            return Some((*other, block));
        }
    }
    None
}

// The first two blocks that overlap where neither can move, the earlier one first.
#[tactic(auto, unfolding(crate::specs::Stuck::first_pair))]
pub(crate) fn first_pair(blocks: &[MemoryBlock]) -> Option<(MemoryBlock, MemoryBlock)>
    ensures { result ≡ pair_of blocks.now }
{
    let mut rest = blocks;
    while let Some((block, others)) = rest.split_first() {
        if let Some(pair) = first_partner(*block, others) {
            return Some(pair);
        }
        rest = others;
    }
    None
}
