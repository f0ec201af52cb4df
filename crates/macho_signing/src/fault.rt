//! Why a file is not signed anew.
ghost use Rattle.std.specs.Prelude.{◌≡◌};
ghost use Rattle.macho_signing.specs.Fault.{answer_to_file, answer_to_signature};
ghost use Rattle.macho_signing.specs.declared.fault.SigningFault.TheVariants.{Memory};

use macho_image::MachFault;
use macho_signatures::SignatureFault;
use std::alloc::{AllocError, AllocFailed};
use std::error::Error;
use std::fmt;

/// Why a file's signatures are not read, or their slots are not made anew: the first check that fails.
#[derive(Clone, Copy, Debug, PartialEq, Eq)]
pub enum SigningFault {
    /// The bytes are no Mach-O file that is read.
    File(MachFault),
    /// A load command that tells of a signature is too short to say where.
    BadCommand,
    /// More than one load command tells of a signature.
    SeveralSignatures,
    /// The signature begins before the load commands end.
    InCommands,
    /// The signature contradicts itself.
    Signature(SignatureFault),
    /// The edit changed bytes of the signature, or behind its beginning.
    ChangedSignature,
    /// There was no memory.
    Memory,
}

impl fmt::Display for SigningFault {
    fn fmt<W: fmt::Write>(&self, f: &mut fmt::Formatter<W>) -> fmt::Result {
        match self {
            SigningFault::File(fault) => write!(f, "{fault}"),
            SigningFault::BadCommand => write!(f, "BadCommand"),
            SigningFault::SeveralSignatures => write!(f, "SeveralSignatures"),
            SigningFault::InCommands => write!(f, "InCommands"),
            SigningFault::Signature(fault) => write!(f, "{fault}"),
            SigningFault::ChangedSignature => write!(f, "ChangedSignature"),
            SigningFault::Memory => write!(f, "Memory"),
        }
    }
}

impl Error for SigningFault {}

impl From<MachFault> for SigningFault {
    ghost from_gives = { λ e answer. answer ≡ answer_to_file e };

    fn from(fault: MachFault) -> SigningFault {
        match fault {
            MachFault::Memory => SigningFault::Memory,
            fault => SigningFault::File(fault),
        }
    }
}

impl From<SignatureFault> for SigningFault {
    ghost from_gives = { λ e answer. answer ≡ answer_to_signature e };

    fn from(fault: SignatureFault) -> SigningFault {
        match fault {
            SignatureFault::Memory => SigningFault::Memory,
            fault => SigningFault::Signature(fault),
        }
    }
}

impl From<AllocError> for SigningFault {
    ghost from_gives = { λ _ fault. fault ≡ Memory };

    fn from(_refused: AllocError) -> SigningFault {
        SigningFault::Memory
    }
}

impl<T: Drop> From<AllocFailed<T>> for SigningFault {
    ghost from_gives = { λ _ fault. fault ≡ Memory };

    fn from(_refused: AllocFailed<T>) -> SigningFault {
        SigningFault::Memory
    }
}
