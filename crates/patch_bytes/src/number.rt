ghost use Rattle.std.specs.Prelude.{◌≡◌, ◌+◌, ◌*◌, ◌^◌, ◌≤◌, ◌<◌, ◌↔◌, ◌++◌, length, take, drop, IsTrue, MatchResult};
ghost use Rattle.patch_bytes.specs.declared.number.Wide.TheVariants.{W64};
ghost use Rattle.patch_bytes.specs.Number.{ReadsNumber, WritesNumber, bytes_of, field, value_of, word_size};

use byteorder::{BigEndian, ByteOrder, LittleEndian};
use std::error::Error;
use std::fmt;

/// The order in which the bytes of a number stand.
#[derive(Clone, Copy, Debug, PartialEq, Eq)]
pub enum ByteOrder2 {
    /// The lowest byte first.
    Little,
    /// The highest byte first.
    Big,
}

/// The width of a word, as a file's class tells it.
#[derive(Clone, Copy, Debug, PartialEq, Eq)]
pub enum Wide {
    /// Words of 4 bytes.
    W32,
    /// Words of 8 bytes.
    W64,
}

impl Wide {
    /// Whether words have 64 bits.
    pub fn is_big(self) -> bool
        ensures { IsTrue result ↔ (self ≡ W64) }
    {
        match self {
            Wide::W32 => false,
            Wide::W64 => true,
        }
    }
}

/// A field that does not lie in the bytes.
#[derive(Clone, Copy, Debug, PartialEq, Eq)]
pub struct Outside;

impl fmt::Display for Outside {
    fn fmt<W: fmt::Write>(&self, f: &mut fmt::Formatter<W>) -> fmt::Result {
        f.write_str("Outside")
    }
}

impl Error for Outside {}

// The field of `width` bytes at `pos`.
fn field_at(bytes: &[u8], pos: usize, width: usize) -> Result<&[u8], Outside>
    ensures { MatchResult result
        (λ found. (pos + width ≤ length bytes.now) × (found.now ≡ field width pos bytes.now))
        (λ _. length bytes.now < pos + width) }
{
    if pos > bytes.len() || width > bytes.len() - pos {
        return Err(Outside);
    }
    Ok(&bytes[pos..pos + width])
}

/// The 16-bit number at a position, or `Outside` where its 2 bytes do not all lie in the bytes.
pub fn read_u16_at(bytes: &[u8], pos: usize, order: ByteOrder2) -> Result<u16, Outside>
    ensures { ReadsNumber order 2 pos bytes.now result }
{
    let field = field_at(bytes, pos, 2)?;
    Ok(match order {
        ByteOrder2::Little => LittleEndian::read_u16(field),
        ByteOrder2::Big => BigEndian::read_u16(field),
    })
}

/// The 32-bit number at a position, or `Outside` where its 4 bytes do not all lie in the bytes.
pub fn read_u32_at(bytes: &[u8], pos: usize, order: ByteOrder2) -> Result<u32, Outside>
    ensures { ReadsNumber order 4 pos bytes.now result }
{
    let field = field_at(bytes, pos, 4)?;
    Ok(match order {
        ByteOrder2::Little => LittleEndian::read_u32(field),
        ByteOrder2::Big => BigEndian::read_u32(field),
    })
}

/// The 64-bit number at a position, or `Outside` where its 8 bytes do not all lie in the bytes.
pub fn read_u64_at(bytes: &[u8], pos: usize, order: ByteOrder2) -> Result<u64, Outside>
    ensures { ReadsNumber order 8 pos bytes.now result }
{
    let field = field_at(bytes, pos, 8)?;
    Ok(match order {
        ByteOrder2::Little => LittleEndian::read_u64(field),
        ByteOrder2::Big => BigEndian::read_u64(field),
    })
}

/// The word at a position: 4 or 8 bytes, as the width says.
pub fn read_word_at(bytes: &[u8], pos: usize, wide: Wide, order: ByteOrder2) -> Result<u64, Outside>
    ensures { ReadsNumber order (word_size wide) pos bytes.now result }
{
    match wide {
        Wide::W32 => {
            let word = read_u32_at(bytes, pos, order)?;
            Ok(u64::from(word))
        }
        Wide::W64 => read_u64_at(bytes, pos, order),
    }
}

/// Writes a 16-bit number at a position and keeps all other bytes, or answers `Outside` and changes
/// nothing.
pub fn write_u16_at(
    bytes: &mut [u8],
    pos: usize,
    value: u16,
    order: ByteOrder2,
) -> Result<(), Outside>
    ensures { WritesNumber order 2 pos value bytes.old bytes.new result }
{
    if pos > bytes.len() || bytes.len() - pos < 2 {
        return Err(Outside);
    }
    match order {
        ByteOrder2::Little => LittleEndian::write_u16(&mut bytes[pos..], value),
        ByteOrder2::Big => BigEndian::write_u16(&mut bytes[pos..], value),
    }
    Ok(())
}

/// Writes a 32-bit number at a position and keeps all other bytes, or answers `Outside` and changes
/// nothing.
pub fn write_u32_at(
    bytes: &mut [u8],
    pos: usize,
    value: u32,
    order: ByteOrder2,
) -> Result<(), Outside>
    ensures { WritesNumber order 4 pos value bytes.old bytes.new result }
{
    if pos > bytes.len() || bytes.len() - pos < 4 {
        return Err(Outside);
    }
    match order {
        ByteOrder2::Little => LittleEndian::write_u32(&mut bytes[pos..], value),
        ByteOrder2::Big => BigEndian::write_u32(&mut bytes[pos..], value),
    }
    Ok(())
}

/// Writes a 64-bit number at a position and keeps all other bytes, or answers `Outside` and changes
/// nothing.
pub fn write_u64_at(
    bytes: &mut [u8],
    pos: usize,
    value: u64,
    order: ByteOrder2,
) -> Result<(), Outside>
    ensures { WritesNumber order 8 pos value bytes.old bytes.new result }
{
    if pos > bytes.len() || bytes.len() - pos < 8 {
        return Err(Outside);
    }
    match order {
        ByteOrder2::Little => LittleEndian::write_u64(&mut bytes[pos..], value),
        ByteOrder2::Big => BigEndian::write_u64(&mut bytes[pos..], value),
    }
    Ok(())
}

/// Writes a word at a position and keeps all other bytes, or answers `Outside` and changes nothing.
pub fn write_word_at(
    bytes: &mut [u8],
    pos: usize,
    value: u64,
    wide: Wide,
    order: ByteOrder2,
) -> Result<(), Outside>
    requires { value < 256 ^ word_size wide }
    ensures { WritesNumber order (word_size wide) pos value bytes.old bytes.new result }
{
    match wide {
        Wide::W32 => write_u32_at(bytes, pos, value as u32, order),
        Wide::W64 => write_u64_at(bytes, pos, value, order),
    }
}
