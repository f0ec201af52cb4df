//! Whether Mach-O files bear code signatures, and the line that tells it.
ghost use Rattle.std.specs.Prelude.{◌≡◌, ◌++◌, [], IfOk, codes, if◌then◌else◌, map, string_bytes};
ghost use Rattle.std.specs.List.{list_any};
ghost use Rattle.arwen_macho.specs.FatSlice.{slice_model};
ghost use Rattle.macho_commands_stores.specs.Signed.{is_signed as bears_signature, is_signature as bears_it, is_signed_file as is_file_signed, is_signed_slice};

use arwen_macho::macho::{FatMacho, MachO, MachoType};
use macho_image::command::{CommandVariant, LoadCommand};
use std::alloc::{AllocError, Global};

/// The command that tells where a signature lies (`LC_CODE_SIGNATURE` of loader.h).
const LC_CODE_SIGNATURE: u32 = 0x1d;

/// Whether a file is signed, or a slice of a fat one.
pub fn is_signed_file(file: &MachoType<'_>) -> bool
    ensures { result ≡ is_file_signed file.now }
{
    match file {
        MachoType::SingleArch(single) => is_signed(single.inner()),
        MachoType::Fat(fat) => has_signed_slice(fat.archs()),
    }
}

/// Whether a slice is signed.
fn has_signed_slice(slices: &[FatMacho<'_>]) -> bool
    ensures { result ≡ list_any is_signed_slice (map slice_model slices.now) }
{
    for slice in slices {
        if is_signed(slice.inner().inner()) {
            return true;
        }
    }
    false
}

/// Whether a load command of a thin file tells of a signature.
fn is_signed(macho: &MachO<'_>) -> bool
    ensures { result ≡ bears_signature macho.now.bytes }
{
    for command in macho.load_commands() {
        if is_signature(command) {
            return true;
        }
    }
    false
}

/// Whether a load command tells of a signature.
fn is_signature(command: &LoadCommand) -> bool
    ensures { result ≡ bears_it command.now }
{
    match command.command {
        CommandVariant::Other(header) => header.cmd == LC_CODE_SIGNATURE,
        _ => false,
    }
}

/// The line of a note: a file's path with these words behind it, where it is told, and else no text. Error:
/// `AllocError`.
pub fn note_if(alloc: Global, is_told: bool, path: &str, words: &str) -> Result<String, AllocError>
    ensures { IfOk result (λ text. string_bytes text
        ≡ (if is_told then codes "note: " ++ path.now ++ words.now else [])) }
{
    let mut text = String::new(alloc);
    if is_told {
        text.push_str("note: ")?;
        text.push_str(path)?;
        text.push_str(words)?;
    }
    Ok(text)
}
