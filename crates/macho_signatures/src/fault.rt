ghost use Rattle.macho_signatures.specs.declared.fault.SignatureFault.TheVariants.{Memory};
ghost use Rattle.std.specs.Prelude.{◌≡◌};

use std::alloc::{AllocError, AllocFailed};
use std::error::Error;
use std::fmt;

/// Why the bytes that `LC_CODE_SIGNATURE` names are no code signature that is read here: the first check that fails.
#[derive(Clone, Copy, Debug, PartialEq, Eq)]
pub enum SignatureFault {
    /// The bytes end past the file's end.
    Outside,
    /// The bytes don't begin with a SuperBlob.
    NoSuperBlob,
    /// The SuperBlob's length is less than its header's, or more than there is.
    BadLength,
    /// The index ends past the SuperBlob's end.
    BadIndex,
    /// A blob stands inside the header or the index, ends past the SuperBlob's end, or overlaps another.
    BadBlob,
    /// A code directory's magic, version, identifier or place of the slots contradicts its bytes.
    BadDirectory,
    /// Pages are hashed in a way that isn't known here.
    UnknownHash,
    /// The exponent of the page size is above 31.
    BadPageSize,
    /// The pages are scattered.
    Scattered,
    /// There isn't one slot for each page.
    BadSlots,
    /// The signed bytes end past the beginning of the signature.
    BadLimit,
    /// There is no code directory at slot type 0.
    NoDirectory,
    /// There was no memory.
    Memory,
}

impl fmt::Display for SignatureFault {
    fn fmt<W: fmt::Write>(&self, f: &mut fmt::Formatter<W>) -> fmt::Result {
        f.write_str(match self {
            SignatureFault::Outside => "Outside",
            SignatureFault::NoSuperBlob => "NoSuperBlob",
            SignatureFault::BadLength => "BadLength",
            SignatureFault::BadIndex => "BadIndex",
            SignatureFault::BadBlob => "BadBlob",
            SignatureFault::BadDirectory => "BadDirectory",
            SignatureFault::UnknownHash => "UnknownHash",
            SignatureFault::BadPageSize => "BadPageSize",
            SignatureFault::Scattered => "Scattered",
            SignatureFault::BadSlots => "BadSlots",
            SignatureFault::BadLimit => "BadLimit",
            SignatureFault::NoDirectory => "NoDirectory",
            SignatureFault::Memory => "Memory",
        })
    }
}

impl Error for SignatureFault {}

impl From<AllocError> for SignatureFault {
    ghost from_gives = { λ _ fault. fault ≡ Memory };

    fn from(_refused: AllocError) -> SignatureFault {
        SignatureFault::Memory
    }
}

impl<T: Drop> From<AllocFailed<T>> for SignatureFault {
    ghost from_gives = { λ _ fault. fault ≡ Memory };

    fn from(_refused: AllocFailed<T>) -> SignatureFault {
        SignatureFault::Memory
    }
}
