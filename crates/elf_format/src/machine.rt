ghost use Rattle.std.specs.Prelude.{◌≡◌};
ghost use Rattle.elf_format.specs.Machine.{default_page_size as page_size_of, machine_of as machine_told};

use crate::constants::{
    EM_AARCH64, EM_ALPHA, EM_IA_64, EM_LOONGARCH, EM_MIPS, EM_PPC, EM_PPC64, EM_SPARC, EM_SPARCV9,
    EM_TILEGX,
};
use crate::numbers::half_at;
use crate::opening::{form, has_magic};

/// The machine that a file is for (gABI, ELF Header, `e_machine`), by its first 20 bytes alone and in their own
/// byte order: `None` where they aren't there, or where magic, class, byte order or version aren't those of an
/// ELF file. Takes no memory.
pub fn machine_of(bytes: &[u8]) -> Option<u16>
    ensures { result ≡ machine_told bytes.now }
{
    if bytes.len() < 20 || !has_magic(bytes) {
        return None;
    }
    let form = form(bytes)?;
    Some(half_at(form, bytes, 18))
}

/// The pages that files of a machine are laid out for where nothing tells their size, in bytes. Takes no memory.
pub fn default_page_size(machine: u16) -> u32
    ensures { result ≡ page_size_of machine }
{
    match machine {
        EM_ALPHA | EM_IA_64 | EM_MIPS | EM_PPC | EM_PPC64 | EM_AARCH64 | EM_TILEGX | EM_LOONGARCH =>
            65536,
        EM_SPARC | EM_SPARCV9 => 8192,
        _ => 4096,
    }
}
