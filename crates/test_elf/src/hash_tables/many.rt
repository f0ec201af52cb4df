//! Many symbols: in one bucket no table takes longer than in many.

use super::built::{Kind, LITTLE_64, Source, gnu_order, table};
use crate::support::{fitting, same};
use elf_hashes::GnuSizes;
use std::alloc::{AllocError, Global};

const COUNT: usize = 20_000;

// Symbol 0, and a symbol `f` so many times.
fn repeated(alloc: Global, count: usize) -> Result<Vec<u8>, AllocError> {
    let mut bytes = Vec::from_slice(alloc, &[0; 24])?;
    for _ in 0..count {
        bytes.extend_from_slice(b"\x01\0\0\0\x12\0\x05\0\0\0\0\0\0\0\0\0\0\0\0\0\0\0\0\0")?;
    }
    Ok(bytes)
}

const SIZES: GnuSizes = GnuSizes {
    buckets: 3,
    filter_words: 1,
    filter_shift: 6,
};

// What a table is made of, the buckets that its order is for, its kind, and how long it is: of the gABI's in one bucket two
// numbers, the bucket and the chain; of the GNU one, whose symbols are one run, header, filter, buckets and words.
static LONG: [(&str, u32, Kind, usize); 2] = [
    ("one bucket", 1, Kind::Gabi(1), 4 * (COUNT + 4)),
    ("one run", 3, Kind::Gnu(SIZES), 16 + 8 + 12 + 4 * COUNT),
];

#[test]
fn one_bucket_and_one_run(rt: HostRuntime) {
    let records = sure!(&rt; repeated(rt.alloc(), COUNT));
    let source = Source {
        form: LITTLE_64,
        texts: b"\0f\0",
        records: &records,
        versions: None,
    };
    for (what, buckets, kind, length) in &LONG {
        let order = sure!(&rt; fitting(gnu_order(rt.alloc(), &source, *buckets)));
        let order = order.expect(&rt, "an order");
        same(&rt, "as they stand", &order.last(), &Some(&COUNT));
        let found = sure!(&rt; fitting(table(rt.alloc(), &source, &order, *kind)));
        same(&rt, what, &found.map(|table| table.len()), &Some(*length));
    }
}
