ghost use Rattle.std.specs.Prelude.{◌≡◌, ◌≢◌, ◌+◌, ◌*◌, ◌^◌, ◌<◌, ◌≤◌, ◌&&◌, All, IfOk, MatchResult, Some, None, filter, length, nat_le, nat_lt};
ghost use Rattle.std.specs.List.{list_any};
ghost use Rattle.std.specs.List.Sorted.{IsNonDecreasingBy};
ghost use Rattle.macho_image.specs.Fat.{arch_of, archs_of, has_fat_magic, is_outside, slices_fault, some_share, table, table_end, table_fault};

use crate::field::number32;
use crate::format::MachFault;
use patch_bytes::ByteOrder2;
use std::alloc::{AllocError, Global};

/// The magic of a fat file, `FAT_MAGIC` of fat.h. It stands in big-endian order, as all of the header and
/// the table do.
pub const FAT_MAGIC: u32 = 0xcafe_babe;

/// The bytes of `fat_header`, behind which the table stands.
pub const FAT_HEADER_SIZE: usize = 8;

/// The bytes of a record of the table, `fat_arch`.
pub const FAT_ARCH_SIZE: usize = 20;

/// `fat_arch` of fat.h: a slice of a fat file.
#[derive(Clone, Copy, Debug, PartialEq, Eq)]
pub struct FatArch {
    /// The processor's type.
    pub cputype: u32,
    /// The processor's model.
    pub cpusubtype: u32,
    /// Where the slice begins in the file, in bytes.
    pub offset: u32,
    /// How many bytes the slice has.
    pub size: u32,
    /// The slice's alignment, as a power of 2.
    pub align: u32,
}

impl FatArch {
    // Where the slice ends in the file, in bytes: past 32 bits where a table says so.
    fn end(self) -> usize
        ensures { result ≡ self.offset + self.size }
    {
        self.offset as usize + self.size as usize
    }
}

/// Whether the first four bytes are a fat file's magic. Takes no memory.
pub fn is_fat(bytes: &[u8]) -> bool
    ensures { result ≡ (nat_le 4 (length bytes.now) && has_fat_magic bytes.now) }
{
    bytes.len() >= 4 && number32(bytes, 0, ByteOrder2::Big) == FAT_MAGIC
}

/// The slices of a fat file, in the order of its table: `fat_header` and the `fat_arch` records of fat.h.
///
/// # Errors
///
/// The first of these checks that fails, or `Memory` where a growth was refused.
///
/// * `TooLong`: the file has at most 4,294,967,295 bytes.
/// * `Truncated`: it has the four bytes of a magic.
/// * `BadMagic`: they are `FAT_MAGIC`.
/// * `Truncated`: the header of 8 bytes and the `nfat_arch` records of 20 bytes that it tells lie in the file.
/// * `SliceOutside`: each slice begins at the table's end or behind it, and ends in the file.
/// * `SlicesOverlap`: no two slices share a byte. An empty slice shares none.
#[tactic(auto, unfolding(crate::specs::Fat::table_fault, crate::specs::Fat::archs_of))]
pub fn fat_archs(alloc: Global, bytes: &[u8]) -> Result<Vec<FatArch>, MachFault>
    ensures { MatchResult result
        (λ archs. (table_fault bytes.now ≡ None) × (archs.items ≡ archs_of bytes.now))
        (λ e. e ≢ MachFault.Memory → table_fault bytes.now ≡ Some e) }
{
    if bytes.len() > u32::MAX as usize {
        return Err(MachFault::TooLong);
    }
    if bytes.len() < 4 {
        return Err(MachFault::Truncated);
    }
    if !is_fat(bytes) {
        return Err(MachFault::BadMagic);
    }
    if bytes.len() < FAT_HEADER_SIZE {
        return Err(MachFault::Truncated);
    }
    let count = number32(bytes, 4, ByteOrder2::Big) as usize;
    if bytes.len() < table_end(count) {
        return Err(MachFault::Truncated);
    }
    let archs = read_table(alloc, count, &bytes[FAT_HEADER_SIZE..])?;
    check_slices(alloc, bytes.len(), &archs)?;
    Ok(archs)
}

// Where a table of so many slices ends in the file, in bytes.
fn table_end(count: usize) -> usize
    requires { count < 2 ^ 32 }
    ensures { result ≡ table_end count }
{
    FAT_HEADER_SIZE + FAT_ARCH_SIZE * count
}

/// The first `count` records of a table, which stand in these bytes end to end. Error: `AllocError`.
pub fn read_table(alloc: Global, count: usize, bytes: &[u8]) -> Result<Vec<FatArch>, AllocError>
    requires { FAT_ARCH_SIZE * count ≤ length bytes.now }
    ensures { IfOk result (λ archs. archs.items ≡ table count bytes.now) }
{
    let mut archs = Vec::new(alloc);
    let mut rest = bytes;
    for _i in 0..count {
        archs.push(read_arch(rest))?;
        rest = &rest[FAT_ARCH_SIZE..];
    }
    Ok(archs)
}

// The record at the head of what is left of a table.
fn read_arch(rest: &[u8]) -> FatArch
    requires { FAT_ARCH_SIZE ≤ length rest.now }
    ensures { result ≡ arch_of rest.now }
{
    FatArch {
        cputype: number32(rest, 0, ByteOrder2::Big),
        cpusubtype: number32(rest, 4, ByteOrder2::Big),
        offset: number32(rest, 8, ByteOrder2::Big),
        size: number32(rest, 12, ByteOrder2::Big),
        align: number32(rest, 16, ByteOrder2::Big),
    }
}

// Checks the slices of a file of `len` bytes, or answers the first check that fails.
#[tactic(auto, unfolding(crate::specs::Fat::slices_fault))]
fn check_slices(alloc: Global, len: usize, archs: &[FatArch]) -> Result<(), MachFault>
    requires { length archs.now < 2 ^ 32 }
    ensures { MatchResult result
        (λ _. slices_fault len archs.now ≡ None)
        (λ e. e ≢ MachFault.Memory → slices_fault len archs.now ≡ Some e) }
{
    if some_outside(len, table_end(archs.len()), archs) {
        return Err(MachFault::SliceOutside);
    }
    if some_share(alloc, archs)? {
        return Err(MachFault::SlicesOverlap);
    }
    Ok(())
}

// Whether some slice ends past `len` bytes, or begins before the table's end.
fn some_outside(len: usize, table_end: usize, archs: &[FatArch]) -> bool
    ensures { result ≡ list_any (is_outside len table_end) archs.now }
{
    archs.iter().any(|arch| len < arch.end() || (arch.offset as usize) < table_end)
}

// Whether some two slices share a byte: looked for among neighbours, where the slices that have bytes are
// sorted by where they begin.
fn some_share(alloc: Global, archs: &[FatArch]) -> Result<bool, AllocError>
    ensures { IfOk result (λ answer. answer ≡ some_share archs.now) }
{
    let mut slices = filled(alloc, archs)?;
    slices.sort_unstable_by_key(|arch| arch.offset);
    Ok(neighbours_share(&slices))
}

// The slices that have bytes.
fn filled(alloc: Global, archs: &[FatArch]) -> Result<Vec<FatArch>, AllocError>
    ensures { IfOk result (λ kept. kept.items ≡ filter (λ arch. nat_lt 0 arch.size) archs.now) }
{
    archs
        .iter()
        .copied()
        .filter(|arch| 0 < arch.size)
        .collect(alloc)
}

// Whether some two of the slices share a byte, where each begins no earlier than the one before it.
fn neighbours_share(archs: &[FatArch]) -> bool
    requires filled { All (λ arch. 0 < arch.size) archs.now }
    requires rising { IsNonDecreasingBy (λ arch. arch.offset) archs.now }
    ensures { result ≡ some_share archs.now }
{
    let mut last_end = 0;
    for arch in archs {
        if (arch.offset as usize) < last_end {
            return true;
        }
        last_end = arch.end();
    }
    false
}
