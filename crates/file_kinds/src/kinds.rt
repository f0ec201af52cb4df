//! Kinds of files, told by their first bytes.
ghost use Rattle.std.specs.Prelude.{◌≡◌, true, false};
ghost use Rattle.std.specs.List.{list_all};
ghost use Rattle.file_kinds.specs.Kinds.{fat_kind as fat_told, has_few_slices as counts_few, holder_or as held_or, is_compressed as is_packed, is_mach_o as is_macho_file, is_text as are_text_bytes, is_text_byte as is_of_text, kind_of as kind_told, program_or as run_or, text_or as written_or};

/// How many bytes are looked at to see whether a file is text.
const TEXT_FRONT: usize = 512;

/// What a file is, by its first bytes.
#[derive(Clone, Copy, Debug, PartialEq, Eq)]
pub enum FileKind {
    /// The file has no byte.
    Empty,
    /// An ELF file: 0x7f and `ELF`.
    Elf,
    /// A thin Mach-O file, `MH_MAGIC` or `MH_MAGIC_64` of loader.h in either byte order.
    MachO,
    /// A fat Mach-O file, `FAT_MAGIC` with fewer than 45 slices or `FAT_MAGIC_64` of fat.h.
    FatMachO,
    /// A class of Java: `FAT_MAGIC`, and a version.
    JavaClass,
    /// A program of Windows or DOS: `MZ`.
    WindowsProgram,
    /// An archive of ar: `!<arch>`.
    Archive,
    /// A thin archive of ar: `!<thin>`.
    ThinArchive,
    /// A zip archive: `PK`, 3 and 4.
    Zip,
    /// What gzip, bzip2, xz or zstd made.
    Compressed,
    /// A script: `#!`.
    Script,
    /// Text: none of the first 512 bytes is a control character other than a tab, line feed or the like.
    Text,
    /// Nothing that is known here.
    Other,
}

/// What a file is, by its first bytes. Takes no memory.
#[tactic(auto, unfolding(crate::specs::Kinds::kind_of))]
pub fn kind_of(bytes: &[u8]) -> FileKind
    ensures { result ≡ kind_told bytes.now }
{
    if bytes.is_empty() {
        return FileKind::Empty;
    }
    let other = text_or(FileKind::Other, bytes);
    let other = holder_or(other, bytes);
    program_or(other, bytes)
}

/// A program or a library, or another kind.
fn program_or(other: FileKind, bytes: &[u8]) -> FileKind
    ensures { result ≡ run_or other bytes.now }
{
    if bytes.starts_with(&[0x7f, 0x45, 0x4c, 0x46]) {
        return FileKind::Elf;
    }
    if is_mach_o(bytes) {
        return FileKind::MachO;
    }
    if bytes.starts_with(&[0xca, 0xfe, 0xba, 0xbf]) {
        return FileKind::FatMachO;
    }
    if bytes.starts_with(&[0xca, 0xfe, 0xba, 0xbe]) {
        return fat_kind(bytes);
    }
    if bytes.starts_with(&[0x4d, 0x5a]) {
        return FileKind::WindowsProgram;
    }
    other
}

/// Whether a file begins as a thin Mach-O file.
fn is_mach_o(bytes: &[u8]) -> bool
    ensures { result ≡ is_macho_file bytes.now }
{
    bytes.starts_with(&[0xfe, 0xed, 0xfa, 0xce])
        || bytes.starts_with(&[0xfe, 0xed, 0xfa, 0xcf])
        || bytes.starts_with(&[0xce, 0xfa, 0xed, 0xfe])
        || bytes.starts_with(&[0xcf, 0xfa, 0xed, 0xfe])
}

/// What a file is that begins with `FAT_MAGIC`.
fn fat_kind(bytes: &[u8]) -> FileKind
    ensures { result ≡ fat_told bytes.now }
{
    if has_few_slices(bytes) {
        FileKind::FatMachO
    } else {
        FileKind::JavaClass
    }
}

/// Whether the number behind the magic is one of slices.
fn has_few_slices(bytes: &[u8]) -> bool
    ensures { result ≡ counts_few bytes.now }
{
    bytes.len() >= 8 && bytes[4..].starts_with(&[0, 0, 0]) && bytes[7] < 45
}

/// What holds other files, or another kind.
fn holder_or(other: FileKind, bytes: &[u8]) -> FileKind
    ensures { result ≡ held_or other bytes.now }
{
    if bytes.starts_with(&[0x21, 0x3c, 0x61, 0x72, 0x63, 0x68, 0x3e, 0x0a]) {
        return FileKind::Archive;
    }
    if bytes.starts_with(&[0x21, 0x3c, 0x74, 0x68, 0x69, 0x6e, 0x3e, 0x0a]) {
        return FileKind::ThinArchive;
    }
    if bytes.starts_with(&[0x50, 0x4b, 3, 4]) {
        return FileKind::Zip;
    }
    if is_compressed(bytes) {
        return FileKind::Compressed;
    }
    other
}

/// Whether gzip, bzip2, xz or zstd made a file.
fn is_compressed(bytes: &[u8]) -> bool
    ensures { result ≡ is_packed bytes.now }
{
    bytes.starts_with(&[0x1f, 0x8b])
        || bytes.starts_with(&[0x42, 0x5a, 0x68])
        || bytes.starts_with(&[0xfd, 0x37, 0x7a, 0x58, 0x5a, 0])
        || bytes.starts_with(&[0x28, 0xb5, 0x2f, 0xfd])
}

/// A text, or another kind.
fn text_or(other: FileKind, bytes: &[u8]) -> FileKind
    ensures { result ≡ written_or other bytes.now }
{
    if bytes.starts_with(&[0x23, 0x21]) {
        return FileKind::Script;
    }
    if is_text(bytes) {
        return FileKind::Text;
    }
    other
}

/// Whether the first bytes are a text's.
fn is_text(bytes: &[u8]) -> bool
    ensures { result ≡ are_text_bytes bytes.now }
{
    are_of_text(&bytes[..bytes.len().min(TEXT_FRONT)])
}

/// Whether each byte is one of a text.
fn are_of_text(bytes: &[u8]) -> bool
    ensures { result ≡ list_all is_of_text bytes.now }
{
    for byte in bytes {
        if !is_text_byte(*byte) {
            return false;
        }
    }
    true
}

/// Whether a byte is one of a text.
fn is_text_byte(byte: u8) -> bool
    ensures { result ≡ is_of_text byte }
{
    byte >= 32 && byte != 127 || byte >= 9 && byte <= 13
}
