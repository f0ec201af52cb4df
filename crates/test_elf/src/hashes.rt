//! Names with their hashes.

use crate::support::same;
use elf_tables::{gnu_hash, sysv_hash};

// The hashes were computed by another program.
static HASHES: [(&[u8], u32, u32); 10] = [
    (b"", 0, 5381),
    (b"f", 0x66, 177_675),
    (b"g", 0x67, 177_676),
    (b"exit", 0x6cf04, 0x7c96_7e3f),
    (b"printf", 0x0779_05a6, 0x156b_2bb8),
    (b"printfa", 0x0790_5ab1, 0xc2d0_a319),
    (b"syscall", 0x0b09_985c, 0xbac2_12a0),
    (b"flapenguin.me", 0x0398_7915, 0x8ae9_f18e),
    (b"GLIBC_2.2.5", 0x0969_1a75, 0x4273_15ba),
    (
        b"\xff\xff\xff\xff\xff\xff\xff\xff\xff",
        0x10fef,
        0x6250_bf1c,
    ),
];

#[test]
fn hashes_of_names(rt: HostRuntime) {
    for (name, sysv, gnu) in &HASHES {
        let found = (sysv_hash(name), gnu_hash(name));
        same(&rt, "hashes", &found, &(*sysv, *gnu));
    }
}
