ghost use Rattle.std.specs.Prelude.{◌≡◌, ◌+◌, ◌<◌, ◌^◌, find};
ghost use Rattle.std.specs.List.{slice_get};
ghost use Rattle.patch_bytes.specs.Memory.{bytes_at, text_at};
ghost use Rattle.elf_format.specs.File.{loads_of};
ghost use Rattle.elf_format.specs.Answers.{Gives};
ghost use Rattle.test_elf_plain.specs.PlainViews.{loaded_model, source_model};
ghost use Rattle.elf_format.specs.Views.{byte_at, covers as is_covered};

use elf_format::constants::PT_LOAD;
use elf_format::records::SegmentHeader;
use elf_format::view_fault::ViewFault;
use std::alloc::Global;

/// What a loader sees from an address on, so many bytes at most: the file parts of the loaded segments
/// (gABI, Program Loading). Without an address nothing is seen.
#[derive(Clone, Copy)]
pub struct Loaded<'a> {
    /// The file's bytes.
    pub file: &'a [u8],
    /// The file's program headers.
    pub segments: &'a [SegmentHeader],
    /// The address of the first byte; without one nothing is there.
    pub start: Option<u64>,
    /// How many bytes may be read from there; without a size as many as are loaded.
    pub size: Option<u64>,
}

/// Where bytes are read: in a slice, from its first byte on, or where a loader sees them.
#[derive(Clone, Copy)]
pub enum Source<'a> {
    /// From the slice's first byte on.
    Slice(&'a [u8]),
    /// Where the loaded segments hold it.
    Segments(Loaded<'a>),
}

/// Where records are read, where their texts are, and how many there are.
#[derive(Clone, Copy)]
pub struct TableSource<'a> {
    /// Where the first record begins.
    pub bytes: Source<'a>,
    /// Where the texts begin that records name by offset.
    pub texts: Source<'a>,
    /// How many records there are.
    pub count: u64,
}

/// Where the dynamic list's texts and the tables that it names are read.
#[derive(Clone, Copy)]
pub struct TableSources<'a> {
    /// The texts of dynamic entries.
    pub entry_texts: Source<'a>,
    /// The dynamic symbols.
    pub symbols: TableSource<'a>,
    /// The version of each symbol, two bytes each.
    pub versions: Source<'a>,
    /// The records of defined versions.
    pub definitions: TableSource<'a>,
    /// The records of needed versions.
    pub needs: TableSource<'a>,
}

// Whether an address lies in the file part of a segment.
fn covers(segment: SegmentHeader, address: u128) -> bool
    ensures { result ≡ is_covered segment address }
{
    let start = segment.p_vaddr as u128;
    start <= address && address < start + segment.p_filesz as u128
}

// The first loaded segment whose file part covers an address.
fn covering(segments: &[SegmentHeader], address: u128) -> Option<SegmentHeader>
    ensures { result ≡ find (λ p. is_covered p address) (loads_of segments.now) }
{
    for p in segments {
        if p.p_type == PT_LOAD && covers(*p, address) {
            return Some(*p);
        }
    }
    None
}

// The byte at a position.
fn byte_in(bytes: &[u8], position: u128) -> Option<u8>
    ensures { result ≡ slice_get bytes.now position }
{
    if position >= bytes.len() as u128 {
        return None;
    }
    Some(bytes[position as usize])
}

// The byte at an address.
#[tactic(auto, unfolding(elf_format::specs::Views::byte_at))]
fn loaded_byte(file: &[u8], segments: &[SegmentHeader], address: u128) -> Option<u8>
    requires { address < 2 ^ 101 }
    ensures { result ≡ byte_at segments.now file.now address }
{
    let segment = covering(segments, address)?;
    let behind = address.saturating_sub(segment.p_vaddr as u128);
    byte_in(file, segment.p_offset as u128 + behind)
}

// The byte at a place behind the address, where so many bytes are seen.
fn seen_byte(loaded: &Loaded<'_>, place: u128) -> Option<u8>
    requires { place < 2 ^ 100 }
    ensures { result ≡ loaded_model loaded.now place }
{
    if let Some(size) = loaded.size {
        if place >= size as u128 {
            return None;
        }
    }
    let start = loaded.start?;
    loaded_byte(loaded.file, loaded.segments, start as u128 + place)
}

// The byte at a place of a source.
fn read_byte(source: &Source<'_>, place: u128) -> Option<u8>
    requires { place < 2 ^ 100 }
    ensures { result ≡ source_model source.now place }
{
    match source {
        Source::Slice(bytes) => byte_in(bytes, place),
        Source::Segments(loaded) => seen_byte(loaded, place),
    }
}

// So many bytes from a place on.
pub(crate) fn read_bytes(
    alloc: Global,
    source: &Source<'_>,
    place: u128,
    count: u128,
) -> Result<Vec<u8>, ViewFault>
    requires { place + count < 2 ^ 100 }
    ensures { Gives (λ v. v.items) result (bytes_at count (source_model source.now) place) }
{
    let mut made = Vec::new(alloc);
    for i in 0..count {
        let Some(next) = read_byte(source, place + i) else {
            return Err(ViewFault::Absent);
        };
        made.push(next)?;
    }
    Ok(made)
}

// The text from a place on, up to its NUL, which is one of the first `room` bytes.
pub(crate) fn read_text(
    alloc: Global,
    room: usize,
    source: &Source<'_>,
    place: u64,
) -> Result<Vec<u8>, ViewFault>
    ensures { Gives (λ v. v.items) result (text_at room (source_model source.now) place) }
{
    let mut made = Vec::new(alloc);
    for i in 0..room {
        let Some(next) = read_byte(source, place as u128 + i as u128) else {
            return Err(ViewFault::Absent);
        };
        if next == 0 {
            return Ok(made);
        }
        made.push(next)?;
    }
    Err(ViewFault::Absent)
}
