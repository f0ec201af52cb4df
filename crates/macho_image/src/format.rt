ghost use Rattle.macho_image.specs.declared.format.MachFault.TheVariants.{Memory};
ghost use Rattle.std.specs.Prelude.{◌≡◌};

use patch_bytes::{ByteOrder2, Wide};
use std::alloc::{AllocError, AllocFailed};
use std::error::Error;
use std::fmt;

/// The magic of a 32-bit header, `MH_MAGIC` of loader.h.
pub const MH_MAGIC: u32 = 0xfeed_face;

/// The magic of a 64-bit header, `MH_MAGIC_64` of loader.h.
pub const MH_MAGIC_64: u32 = 0xfeed_facf;

/// Where the number of load commands stands in a header, `ncmds` of loader.h.
pub const NCMDS_AT: usize = 16;

/// Where the bytes of all load commands together are told, `sizeofcmds` of loader.h.
pub const SIZEOFCMDS_AT: usize = 20;

/// The width of a file's words and the order of its bytes, as its magic tells them.
#[derive(Clone, Copy, Debug, PartialEq, Eq)]
pub struct Ctx {
    /// The width: of the header, and of what commands are padded to.
    pub container: Wide,
    /// The order in which the bytes of each number stand.
    pub le: ByteOrder2,
}

/// `mach_header` or `mach_header_64` of loader.h.
#[derive(Clone, Copy, Debug, PartialEq, Eq)]
pub struct Header {
    /// `MH_MAGIC` or `MH_MAGIC_64`.
    pub magic: u32,
    /// The processor's type.
    pub cputype: u32,
    /// The processor's model.
    pub cpusubtype: u32,
    /// The type of file.
    pub filetype: u32,
    /// The number of load commands.
    pub ncmds: u32,
    /// The bytes of all load commands together.
    pub sizeofcmds: u32,
    /// The flags.
    pub flags: u32,
    /// The last field of the 64-bit form, 0 in the 32-bit form, which has none.
    pub reserved: u32,
}

/// Why bytes are no Mach-O file: the first check that fails.
#[derive(Clone, Copy, Debug, PartialEq, Eq)]
pub enum MachFault {
    /// The first four bytes are no magic that is read here.
    BadMagic,
    /// The header, the load commands or the table of slices do not lie in the bytes.
    Truncated,
    /// A load command's size does not fit the commands or its kind.
    BadCommandSize,
    /// A text's offset is past its command's end.
    BadNameOffset,
    /// The sizes of the load commands do not add up to `sizeofcmds`.
    CountsDisagree,
    /// A slice of a fat file lies outside the file, or begins inside the header or the table.
    SliceOutside,
    /// Two slices of a fat file share a byte.
    SlicesOverlap,
    /// The file has more than 4,294,967,295 bytes.
    TooLong,
    /// There was no memory.
    Memory,
}

impl fmt::Display for MachFault {
    fn fmt<W: fmt::Write>(&self, f: &mut fmt::Formatter<W>) -> fmt::Result {
        f.write_str(match self {
            MachFault::BadMagic => "BadMagic",
            MachFault::Truncated => "Truncated",
            MachFault::BadCommandSize => "BadCommandSize",
            MachFault::BadNameOffset => "BadNameOffset",
            MachFault::CountsDisagree => "CountsDisagree",
            MachFault::SliceOutside => "SliceOutside",
            MachFault::SlicesOverlap => "SlicesOverlap",
            MachFault::TooLong => "TooLong",
            MachFault::Memory => "Memory",
        })
    }
}

impl Error for MachFault {}

impl From<AllocError> for MachFault {
    ghost from_gives = { λ _ fault. fault ≡ Memory };

    fn from(_refused: AllocError) -> MachFault {
        MachFault::Memory
    }
}

impl<T: Drop> From<AllocFailed<T>> for MachFault {
    ghost from_gives = { λ _ fault. fault ≡ Memory };

    fn from(_refused: AllocFailed<T>) -> MachFault {
        MachFault::Memory
    }
}
