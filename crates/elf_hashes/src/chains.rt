//! Buckets and their chains.
ghost use Rattle.std.specs.Prelude.{◌≡◌, ◌+◌, ◌<◌, ◌^◌, length, replicate, slice_index, slice_set, IfOk};
ghost use Rattle.elf_hashes.specs.Buckets.{chains, heads, in_buckets};
ghost use Rattle.elf_hashes.specs.Steps.{AreChained};

use std::alloc::{AllocError, Global};

// The first symbol of each bucket, and behind each symbol the next one of its bucket, 0 for none.
#[derive(Drop)]
pub struct Chained {
    pub firsts: Vec<u32>,
    pub nexts: Vec<u32>,
}

// Puts a symbol before those of its bucket, and tells which was the first of them.
fn put_first(firsts: &mut [u32], bucket: usize, symbol: u32) -> u32
    requires { bucket < length firsts.old }
    ensures was { result ≡ slice_index firsts.old bucket }
    ensures put { firsts.new ≡ slice_set firsts.old bucket symbol }
{
    let was = firsts[bucket];
    firsts[bucket] = symbol;
    was
}

// Chains a symbol, where those behind it are chained.
fn chain_symbol(firsts: &mut [u32], nexts: &mut [u32], hashes: &[Option<u32>], i: usize)
    requires some { 0 < length firsts.old }
    requires fits { i < 2 ^ 32 }
    requires inside { i < length hashes.now }
    requires behind { AreChained (i + 1) hashes.now firsts.old nexts.old }
    ensures { AreChained i hashes.now firsts.new nexts.new }
{
    nexts[i] = match hashes[i] {
        Some(hash) => {
            let bucket = hash as usize % firsts.len();
            put_first(firsts, bucket, i as u32)
        }
        None => 0,
    };
}

// Chains all symbols, from the last one on. No bucket has a symbol before.
fn chain(firsts: &mut [u32], nexts: &mut [u32], hashes: &[Option<u32>])
    requires some { 0 < length firsts.old }
    requires none { firsts.old ≡ replicate (length firsts.old) 0 }
    requires long { length nexts.old ≡ length hashes.now }
    requires fits { length hashes.now < 2 ^ 32 }
    ensures firsts { firsts.new
        ≡ heads (length firsts.old) (in_buckets (length firsts.old) hashes.now) }
    ensures nexts { nexts.new ≡ chains 0 (in_buckets (length firsts.old) hashes.now) }
{
    let mut i = hashes.len();
    while i > 0 {
        i -= 1;
        chain_symbol(firsts, nexts, hashes, i);
    }
}

// The buckets and chains of symbols with these hashes.
pub(crate) fn make_chains(
    alloc: Global,
    buckets: u32,
    hashes: &[Option<u32>],
) -> Result<Chained, AllocError>
    requires some { 0 < buckets }
    requires fits { length hashes.now < 2 ^ 32 }
    ensures { IfOk result (λ made.
        (made.firsts.items ≡ heads buckets (in_buckets buckets hashes.now))
        × (made.nexts.items ≡ chains 0 (in_buckets buckets hashes.now))) }
{
    let mut firsts = vec![in alloc; 0; buckets as usize]?;
    let mut nexts = vec![in alloc; 0; hashes.len()]?;
    chain(firsts.as_mut_slice(), nexts.as_mut_slice(), hashes);
    Ok(Chained { firsts, nexts })
}
