ghost use Rattle.elf_format.specs.Image.{image_header};

use crate::records::FileHeader;

/// What the file header says (gABI, ELF Header). Offsets count bytes from the file's start.
#[derive(Clone, Copy, Debug, PartialEq, Eq)]
pub struct Header {
    /// The operating system whose extensions the file uses.
    pub os_abi: u8,
    /// Which version of those extensions, 0 where they have none.
    pub abi_version: u8,
    /// What kind of file it is: `ET_EXEC` a program, `ET_DYN` one that may be loaded anywhere, or a library.
    pub e_type: u16,
    /// The machine that the file's code is for.
    pub e_machine: u16,
    /// The address at which the program starts.
    pub e_entry: u64,
    /// Flags of that machine.
    pub e_flags: u32,
    /// Where the program header table starts.
    pub e_phoff: u64,
    /// Where the section header table starts.
    pub e_shoff: u64,
    /// The number of the section that has the names of all sections.
    pub e_shstrndx: u16,
}

impl Header {
    ghost use Rattle.std.specs.Prelude.{◌≡◌};

    /// What a file header says besides the sizes and counts of the two tables.
    pub fn of(read: FileHeader) -> Self
        ensures { result ≡ image_header read }
    {
        Header {
            os_abi: read.os_abi,
            abi_version: read.abi_version,
            e_type: read.e_type,
            e_machine: read.e_machine,
            e_entry: read.e_entry,
            e_flags: read.e_flags,
            e_phoff: read.e_phoff,
            e_shoff: read.e_shoff,
            e_shstrndx: read.e_shstrndx,
        }
    }
}
