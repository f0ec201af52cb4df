//! What the fault of a file leaves open, by what the file is.
ghost use Rattle.std.specs.Prelude.{◌≡◌, option_map};
ghost use Rattle.file_kinds.specs.Reasons.{cut_elf as elf_cut, cut_macho as macho_cut, elf_reason as elf_told, macho_reason as macho_told, not_elf as elf_not, not_macho as macho_not, of_type as told_of_type, type_of as type_told};

use crate::kinds::{FileKind, kind_of};
use elf_format::ElfFault;
use elf_format::numbers::half_at;
use elf_format::opening::{form, has_magic};
use macho_image::MachFault;

/// The type of an object for a link editor (gABI, ELF Header, `e_type`).
const ET_REL: u16 = 1;

/// The type of what a process left when it was ended (gABI, ELF Header, `e_type`).
const ET_CORE: u16 = 4;

/// What the fault of an ELF file leaves open: what a file is that is no ELF file, that it is cut off, or of a type that
/// isn't read. `None` where the file's kind says nothing of the fault. Takes no memory.
pub fn elf_reason(fault: ElfFault, bytes: &[u8]) -> Option<&'static str>
    ensures { option_map (λ text. text.now) result ≡ elf_told fault bytes.now }
{
    match fault {
        ElfFault::BadMagic => Some(not_elf(kind_of(bytes))),
        ElfFault::Truncated => Some(cut_elf(bytes)),
        ElfFault::Unsupported => of_type(type_of(bytes)),
        ElfFault::Disagree(_) => None,
        ElfFault::BadText => None,
        ElfFault::NumberTooLarge => None,
        ElfFault::Memory => None,
    }
}

/// What a file is that is no ELF file.
fn not_elf(kind: FileKind) -> &'static str
    ensures { result.now ≡ elf_not kind }
{
    match kind {
        FileKind::Empty => "empty file",
        FileKind::MachO => "not an ELF file: a Mach-O file",
        FileKind::FatMachO => "not an ELF file: a fat Mach-O file",
        FileKind::JavaClass => "not an ELF file: a Java class",
        FileKind::WindowsProgram => "not an ELF file: a Windows program",
        FileKind::Archive => "not an ELF file: an archive",
        FileKind::ThinArchive => "not an ELF file: a thin archive",
        FileKind::Zip => "not an ELF file: a zip archive",
        FileKind::Compressed => "not an ELF file: compressed",
        FileKind::Script => "not an ELF file: a script",
        FileKind::Text => "not an ELF file: text",
        FileKind::Elf | FileKind::Other => "not an ELF file",
    }
}

/// What an ELF file is that is cut off.
fn cut_elf(bytes: &[u8]) -> &'static str
    ensures { result.now ≡ elf_cut bytes.now }
{
    if has_magic(bytes) {
        "the file ends before what its headers name"
    } else {
        not_elf(kind_of(bytes))
    }
}

/// The type that a file header tells (gABI, ELF Header, `e_type`).
fn type_of(bytes: &[u8]) -> Option<u16>
    ensures { result ≡ type_told bytes.now }
{
    if bytes.len() < 18 {
        return None;
    }
    let form = form(bytes)?;
    Some(half_at(form, bytes, 16))
}

/// What an ELF file of a type is.
fn of_type(kind: Option<u16>) -> Option<&'static str>
    ensures { option_map (λ text. text.now) result ≡ told_of_type kind }
{
    match kind {
        Some(ET_REL) => Some("a relocatable object"),
        Some(ET_CORE) => Some("a core file"),
        _ => None,
    }
}

/// What the fault of a Mach-O file leaves open: what a file is that is no Mach-O file, that it is cut off, or what of
/// it is wrong. Takes no memory.
pub fn macho_reason(fault: MachFault, bytes: &[u8]) -> Option<&'static str>
    ensures { option_map (λ text. text.now) result ≡ macho_told fault bytes.now }
{
    match fault {
        MachFault::BadMagic => Some(not_macho(kind_of(bytes))),
        MachFault::Truncated => Some(cut_macho(kind_of(bytes))),
        MachFault::BadCommandSize => Some("a load command's size doesn't fit"),
        MachFault::BadNameOffset => Some("a text begins behind its load command"),
        MachFault::CountsDisagree => Some("the load commands don't end where the header says"),
        MachFault::SliceOutside => Some("a slice lies outside the file, or in the table"),
        MachFault::SlicesOverlap => Some("two slices share a byte"),
        MachFault::TooLong => Some("more than 4,294,967,295 bytes"),
        MachFault::Memory => None,
    }
}

/// What a file is that is no Mach-O file.
fn not_macho(kind: FileKind) -> &'static str
    ensures { result.now ≡ macho_not kind }
{
    match kind {
        FileKind::Empty => "empty file",
        FileKind::Elf => "not a Mach-O file: an ELF file",
        FileKind::FatMachO => "a fat file with offsets of 64 bits",
        FileKind::JavaClass => "not a Mach-O file: a Java class",
        FileKind::WindowsProgram => "not a Mach-O file: a Windows program",
        FileKind::Archive => "not a Mach-O file: an archive",
        FileKind::ThinArchive => "not a Mach-O file: a thin archive",
        FileKind::Zip => "not a Mach-O file: a zip archive",
        FileKind::Compressed => "not a Mach-O file: compressed",
        FileKind::Script => "not a Mach-O file: a script",
        FileKind::Text => "not a Mach-O file: text",
        FileKind::MachO | FileKind::Other => "not a Mach-O file",
    }
}

/// What a Mach-O file is that is cut off.
fn cut_macho(kind: FileKind) -> &'static str
    ensures { result.now ≡ macho_cut kind }
{
    match kind {
        FileKind::MachO => "the file ends before its load commands do",
        FileKind::FatMachO | FileKind::JavaClass => {
            "the file ends before the table of slices does"
        }
        FileKind::Empty => "empty file",
        FileKind::Elf => "not a Mach-O file: an ELF file",
        FileKind::WindowsProgram => "not a Mach-O file: a Windows program",
        FileKind::Archive => "not a Mach-O file: an archive",
        FileKind::ThinArchive => "not a Mach-O file: a thin archive",
        FileKind::Zip => "not a Mach-O file: a zip archive",
        FileKind::Compressed => "not a Mach-O file: compressed",
        FileKind::Script => "not a Mach-O file: a script",
        FileKind::Text => "not a Mach-O file: text",
        FileKind::Other => "not a Mach-O file",
    }
}
