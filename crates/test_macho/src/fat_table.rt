//! Tables of fat files: which are accepted, and what they show.

use crate::support::{Runtime, lay, same};
use arwen_macho::macho::{ByteOrder2, FatArch, MachFault};
use macho_image::{fat_archs, is_fat};
use std::alloc::{AllocError, Global};

// A slice for an arm64 processor.
fn slice(&(offset, size): &(u32, u32)) -> FatArch {
    FatArch {
        cputype: 0x0100_000c,
        cpusubtype: 0x8000_0002,
        offset,
        size,
        align: 14,
    }
}

// Lays the record of a slice with this number.
pub(crate) fn lay_record(file: &mut [u8], index: usize, arch: &FatArch) {
    let numbers = [
        arch.cputype,
        arch.cpusubtype,
        arch.offset,
        arch.size,
        arch.align,
    ];
    let place = index.saturating_mul(20).saturating_add(8);
    lay(file, place, &numbers, ByteOrder2::Big);
}

// A file of this length, with a header that tells so many slices, and records of slices at these
// places.
fn file_with(
    alloc: Global,
    length: usize,
    nfat_arch: u32,
    places: &[(u32, u32)],
) -> Result<Vec<u8>, AllocError> {
    let mut file = vec![in alloc; 0; length]?;
    lay(&mut file, 0, &[0xcafe_babe, nfat_arch], ByteOrder2::Big);
    for i in 0..places.len() {
        lay_record(&mut file, i, &slice(&places[i]));
    }
    Ok(file)
}

// The check that a file fails; where it passes all, it shows these slices.
fn answer_of(rt: &impl Runtime, bytes: &[u8], places: &[(u32, u32)]) -> Result<(), MachFault> {
    let archs = fat_archs(rt.alloc(), bytes)?;
    same(rt, "how many slices", &archs.len(), &places.len());
    for (arch, place) in archs.iter().zip(places) {
        same(rt, "a slice", arch, &slice(place));
    }
    Ok(())
}

// The length of a file, how many slices its header tells, where slices begin and how long they are, and what is told of
// the table.
type Table = (usize, u32, &'static [(u32, u32)], Result<(), MachFault>);

const TABLES: &[Table] = &[
    (8192, 0, &[], Ok(())),
    (8192, 1, &[(28, 8164)], Ok(())),
    (8192, 2, &[(4096, 64), (4160, 64)], Ok(())),
    (8192, 3, &[(8191, 1), (4160, 64), (4096, 64)], Ok(())),
    // Empty slices share no byte.
    (8192, 3, &[(4096, 64), (4100, 0), (4100, 0)], Ok(())),
    (8192, 3, &[(8192, 0), (4096, 0), (4096, 9)], Ok(())),
    // Shared bytes.
    (
        8192,
        2,
        &[(4096, 64), (4159, 64)],
        Err(MachFault::SlicesOverlap),
    ),
    (
        8192,
        2,
        &[(4159, 64), (4096, 64)],
        Err(MachFault::SlicesOverlap),
    ),
    (
        8192,
        3,
        &[(4096, 64), (5000, 9), (4096, 64)],
        Err(MachFault::SlicesOverlap),
    ),
    (
        8192,
        3,
        &[(6000, 1), (4096, 2048), (7000, 9)],
        Err(MachFault::SlicesOverlap),
    ),
    (
        8192,
        3,
        &[(4096, 64), (4100, 0), (4101, 9)],
        Err(MachFault::SlicesOverlap),
    ),
    // Slices outside.
    (8192, 1, &[(27, 0)], Err(MachFault::SliceOutside)),
    (8192, 1, &[(8193, 0)], Err(MachFault::SliceOutside)),
    (8192, 1, &[(27, 1)], Err(MachFault::SliceOutside)),
    (8192, 2, &[(47, 1), (4096, 1)], Err(MachFault::SliceOutside)),
    (8192, 1, &[(8191, 2)], Err(MachFault::SliceOutside)),
    (
        8192,
        1,
        &[(u32::MAX, u32::MAX)],
        Err(MachFault::SliceOutside),
    ),
    (8192, 1, &[(u32::MAX, 2)], Err(MachFault::SliceOutside)),
    (
        8192,
        1,
        &[(u32::MAX - 99, 200)],
        Err(MachFault::SliceOutside),
    ),
    (
        8192,
        3,
        &[(4096, 64), (4159, 64), (8191, 2)],
        Err(MachFault::SliceOutside),
    ),
    // A file that ends with its header, or before the end of its second record.
    (8, 2, &[(28, 1)], Err(MachFault::Truncated)),
    (8, 0x0ccc_cccd, &[(28, 1)], Err(MachFault::Truncated)),
    (8, u32::MAX, &[(28, 1)], Err(MachFault::Truncated)),
    (47, 2, &[(28, 1)], Err(MachFault::Truncated)),
    (47, 0x0ccc_cccd, &[(28, 1)], Err(MachFault::Truncated)),
    (47, u32::MAX, &[(28, 1)], Err(MachFault::Truncated)),
];

#[test]
fn reads_and_refuses_tables(rt: HostRuntime) {
    for (length, nfat_arch, places, want) in TABLES {
        let file = sure!(&rt; file_with(rt.alloc(), *length, *nfat_arch, places));
        let answer = again!(&rt; answer_of(&rt, &file, places));
        let row = (length, nfat_arch, places);
        same(&rt, "a table", &(row, answer), &(row, *want));
    }
}

// First bytes of files, their faults, and whether they begin as a fat file does.
const FRONTS: &[(&[u8], MachFault, bool)] = &[
    (b"", MachFault::Truncated, false),
    (b"\xca\xfe\xba", MachFault::Truncated, false),
    (b"\xca\xfe\xba\xbe", MachFault::Truncated, true),
    (b"\xca\xfe\xba\xbe\0\0\0", MachFault::Truncated, true),
    (b"\xca\xfe\xba\xbe\0\0\0\x01", MachFault::Truncated, true),
    (b"\xcf\xfa\xed\xfe", MachFault::BadMagic, false),
    (b"\xbe\xba\xfe\xca", MachFault::BadMagic, false),
    (b"\xbe\xba\xfe\xca\0\0\0\0", MachFault::BadMagic, false),
    (b"\xca\xfe\xba\xbf\0\0\0\0", MachFault::BadMagic, false),
];

#[test]
fn refuses_other_fronts(rt: HostRuntime) {
    for (bytes, fault, begins_fat) in FRONTS {
        let answer = again!(&rt; answer_of(&rt, bytes, &[]));
        let found = (bytes, answer, is_fat(bytes));
        same(&rt, "a front", &found, &(bytes, Err(*fault), *begins_fat));
    }
}

// How many slices a table has of 100,000 slices of 9 bytes, which stand backwards and end to end behind it, and one
// of this size.
fn count_long(alloc: Global, middle: u32) -> Result<usize, MachFault> {
    let mut file = vec![in alloc; 0; 3_000_008]?;
    lay(&mut file, 0, &[0xcafe_babe, 100_000], ByteOrder2::Big);
    for i in 0..100_000u32 {
        let size = if i == 50_000 { middle } else { 9 };
        let numbers = [0, 0, 2_900_000 - 9 * i, size, 0];
        lay(&mut file, i as usize * 20 + 8, &numbers, ByteOrder2::Big);
    }
    Ok(fat_archs(alloc, &file)?.len())
}

// The size of a slice, and what is told of the table.
const LONG_TABLES: &[(u32, Result<usize, MachFault>)] = &[
    (9, Ok(100_000)),
    (10, Err(MachFault::SlicesOverlap)),
];

#[test]
fn reads_long_tables(rt: HostRuntime) {
    for (middle, want) in LONG_TABLES {
        let answer = again!(&rt; count_long(rt.alloc(), *middle));
        same(&rt, "a long table", &(middle, answer), &(middle, *want));
    }
}
