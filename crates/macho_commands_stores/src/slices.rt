//! How much of a fat file is read for an edit: the table of its slices, and the front of each; a thin one is its own slice.
ghost use Rattle.std.specs.Prelude.{◌≡◌, ◌+◌, ◌-◌, ◌*◌, ◌^◌, ◌<◌, ◌≤◌, All, IfErr, IfOk, IfSome, IsTrue, drop, length, vec_len};
ghost use Rattle.byte_store.specs.Causes.{IsNotRead};
ghost use Rattle.byte_store.specs.Known.{Stays};
ghost use Rattle.macho_commands_stores.specs.Slices.{AreFrontsOf, AreFrontsRead, AreRising, AreSlicesRead, IsAt, IsFrontAt, IsTableOf, IsThinRead, whole_arch};

use crate::loading::{FRONT, LONG_FRONT, is_thin_front};
use byte_store::{ReadError, Store, load_up_to};
use command_words::MOST_BYTES;
use macho_image::fat::{FAT_ARCH_SIZE, FAT_HEADER_SIZE, read_table};
use macho_image::field::number32;
use macho_image::{FatArch, is_fat};
use patch_bytes::ByteOrder2;
use std::alloc::{AllocError, Global};
use std::io::ErrorKind;

/// How many bytes are read where a table may stand.
const TABLE: usize = 1 << 12;

/// How many slices a file may have of which the fronts are read.
const MOST_SLICES: usize = 32;

/// The front of a slice of a fat file.
#[derive(Drop)]
pub struct SliceFront {
    /// Where the slice begins in the file.
    pub offset: u64,
    /// How many bytes the slice has.
    pub size: u32,
    /// The slice's first bytes.
    pub bytes: Vec<u8>,
}

/// The fronts of all slices of a fat file, in the order of its table.
#[derive(Drop)]
pub struct SliceFronts {
    /// The fronts.
    pub fronts: Vec<SliceFront>,
    /// How many bytes the file has.
    pub length: u64,
}

/// The fronts of the slices of a store's fat file, in which content begins; `None` where it is no such file, or isn't read
/// in this way: it has no slice or more than 32, they are not in the order of their offsets, or a read gave too few bytes.
///
/// # Errors
///
/// `Memory`, where a growth was refused; `Io` with the error of the call that failed, or one that `load_up_to` makes.
pub fn load_slices<S: Store>(alloc: Global, store: &mut S) -> Result<Option<SliceFronts>, ReadError>
    ensures slices { IfOk result (λ found.
        IfSome found (AreSlicesRead (S.contents store.old))) }
    ensures kept { Stays (S.contents store.old) (S.contents store.new) }
    ensures grows { S.failed store.old ≤ S.failed store.new }
    ensures cause { IfErr result (IsNotRead S.may_fail_read
        (S.contents store.old) (S.failed store.old) (S.failed store.new)) }
{
    let first = load_up_to(alloc, store, TABLE)?;
    let length = store.length()?;
    let Some(archs) = table_of(alloc, first.as_slice(), length)? else {
        return Ok(None);
    };
    let Some(fronts) = fronts_of(alloc, store, archs.as_slice())? else {
        return Ok(None);
    };
    Ok(Some(SliceFronts { fronts, length }))
}

/// The fronts of a store's file: those of the slices of a fat one, as `load_slices` reads them, or that of a thin one as its
/// one slice. `None` where these aren't enough, or the file is short.
///
/// # Errors
///
/// Those of `load_slices`.
pub fn load_fronts<S: Store>(alloc: Global, store: &mut S) -> Result<Option<SliceFronts>, ReadError>
    ensures fronts { IfOk result (λ found.
        IfSome found (AreFrontsRead (S.contents store.old))) }
    ensures kept { Stays (S.contents store.old) (S.contents store.new) }
    ensures grows { S.failed store.old ≤ S.failed store.new }
    ensures cause { IfErr result (IsNotRead S.may_fail_read
        (S.contents store.old) (S.failed store.old) (S.failed store.new)) }
{
    if let Some(slices) = load_slices(alloc, store)? {
        return Ok(Some(slices));
    }
    load_thin(alloc, store)
}

/// The front of a store's thin file, as that of its one slice; `None` where no front of it is enough, or it has no more bytes
/// than are read first in any case.
fn load_thin<S: Store>(alloc: Global, store: &mut S) -> Result<Option<SliceFronts>, ReadError>
    ensures thin { IfOk result (λ found.
        IfSome found (IsThinRead (S.contents store.old))) }
    ensures kept { Stays (S.contents store.old) (S.contents store.new) }
    ensures grows { S.failed store.old ≤ S.failed store.new }
    ensures cause { IfErr result (IsNotRead S.may_fail_read
        (S.contents store.old) (S.failed store.old) (S.failed store.new)) }
{
    let length = store.length()?;
    if length <= FRONT as u64 || length >= MOST_BYTES as u64 {
        return Ok(None);
    }
    let Some(fronts) = fronts_of(alloc, store, &[whole_arch(length as u32)])? else {
        return Ok(None);
    };
    Ok(Some(SliceFronts { fronts, length }))
}

/// A slice that is the whole of a file.
fn whole_arch(size: u32) -> FatArch
    ensures { result ≡ whole_arch size }
{
    FatArch {
        cputype: 0,
        cpusubtype: 0,
        offset: 0,
        size,
        align: 0,
    }
}

/// The slices of a fat file of which these are the first bytes, and which has so many; `None` where its table doesn't
/// stand in them, or isn't one whose slices are read.
fn table_of(alloc: Global, first: &[u8], size: u64) -> Result<Option<Vec<FatArch>>, AllocError>
    ensures { IfOk result (λ found. IfSome found (λ archs. IsTableOf first.now size archs.items)) }
{
    if !is_fat(first) || first.len() < FAT_HEADER_SIZE || size < first.len() as u64 {
        return Ok(None);
    }
    let count = number32(first, 4, ByteOrder2::Big) as usize;
    if count == 0 || count > MOST_SLICES || size >= MOST_BYTES as u64 {
        return Ok(None);
    }
    let end = FAT_HEADER_SIZE + FAT_ARCH_SIZE * count;
    if first.len() < end {
        return Ok(None);
    }
    let archs = read_table(alloc, count, &first[FAT_HEADER_SIZE..])?;
    if !are_rising(archs.as_slice(), end as u64, size) {
        return Ok(None);
    }
    Ok(Some(archs))
}

/// Whether slices have bytes, and each begins where the one before it ends or behind that, the first one at a position or
/// behind it, and the last one ends within so many bytes.
fn are_rising(archs: &[FatArch], start: u64, size: u64) -> bool
    requires { start < 2 ^ 32 }
    ensures { IsTrue result → AreRising start size archs.now }
{
    let mut end = start;
    for arch in archs {
        if arch.size == 0 || (arch.offset as u64) < end {
            return false;
        }
        end = arch.offset as u64 + arch.size as u64;
    }
    end <= size
}

/// The front of each slice; `None` where a slice has none.
fn fronts_of<S: Store>(
    alloc: Global,
    store: &mut S,
    archs: &[FatArch],
) -> Result<Option<Vec<SliceFront>>, ReadError>
    ensures fronts { IfOk result (λ found. IfSome found (λ fronts.
        AreFrontsOf (S.contents store.old) archs.now fronts.items)) }
    ensures kept { Stays (S.contents store.old) (S.contents store.new) }
    ensures grows { S.failed store.old ≤ S.failed store.new }
    ensures cause { IfErr result (IsNotRead S.may_fail_read
        (S.contents store.old) (S.failed store.old) (S.failed store.new)) }
{
    let mut fronts = Vec::new(alloc);
    for arch in archs {
        let Some(front) = front_of(alloc, store, *arch)? else {
            return Ok(None);
        };
        if fronts.push(front).is_err() {
            return Err(ReadError::Memory);
        }
    }
    Ok(Some(fronts))
}

/// The front of a slice; `None` where what was read of it is none.
fn front_of<S: Store>(
    alloc: Global,
    store: &mut S,
    arch: FatArch,
) -> Result<Option<SliceFront>, ReadError>
    ensures front { IfOk result (λ found.
        IfSome found (IsFrontAt (S.contents store.old) arch)) }
    ensures kept { Stays (S.contents store.old) (S.contents store.new) }
    ensures grows { S.failed store.old ≤ S.failed store.new }
    ensures cause { IfErr result (IsNotRead S.may_fail_read
        (S.contents store.old) (S.failed store.old) (S.failed store.new)) }
{
    if let Some(front) = front_within(alloc, store, arch, FRONT)? {
        return Ok(Some(front));
    }
    front_within(alloc, store, arch, LONG_FRONT)
}

/// The front of a slice, of at most so many bytes; `None` where what was read of it is none.
fn front_within<S: Store>(
    alloc: Global,
    store: &mut S,
    arch: FatArch,
    most: usize,
) -> Result<Option<SliceFront>, ReadError>
    ensures front { IfOk result (λ found.
        IfSome found (IsFrontAt (S.contents store.old) arch)) }
    ensures kept { Stays (S.contents store.old) (S.contents store.new) }
    ensures grows { S.failed store.old ≤ S.failed store.new }
    ensures cause { IfErr result (IsNotRead S.may_fail_read
        (S.contents store.old) (S.failed store.old) (S.failed store.new)) }
{
    let offset = arch.offset as u64;
    let bytes = load_at(alloc, store, offset, most.min(arch.size as usize))?;
    if !is_thin_front(alloc, bytes.as_slice())? {
        return Ok(None);
    }
    Ok(Some(SliceFront {
        offset,
        size: arch.size,
        bytes,
    }))
}

/// What one read gives of a store from an offset on, at most so many bytes. An interrupted read gives none.
pub(crate) fn load_at<S: Store>(
    alloc: Global,
    store: &mut S,
    offset: u64,
    most: usize,
) -> Result<Vec<u8>, ReadError>
    ensures read { IfOk result (λ bytes. IsAt (S.contents store.old) offset bytes.items) }
    ensures bound { IfOk result (λ bytes. vec_len bytes ≤ most) }
    ensures kept { Stays (S.contents store.old) (S.contents store.new) }
    ensures grows { S.failed store.old ≤ S.failed store.new }
    ensures cause { IfErr result (IsNotRead S.may_fail_read
        (S.contents store.old) (S.failed store.old) (S.failed store.new)) }
{
    let mut bytes = Vec::new(alloc);
    bytes.resize(most, 0)?;
    match store.read_at(offset, bytes.as_mut_slice()) {
        Ok(count) => {
            bytes.truncate(count);
            Ok(bytes)
        }
        Err(error) if error.kind() == ErrorKind::Interrupted => {
            bytes.truncate(0);
            Ok(bytes)
        }
        Err(error) => Err(ReadError::Io(error)),
    }
}
