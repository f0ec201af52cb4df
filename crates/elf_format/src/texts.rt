ghost use Rattle.std.specs.Prelude.{◌≡◌, ◌≤◌, length, IfErr};
ghost use Rattle.patch_bytes.specs.Memory.{memory_of, text_at};
ghost use Rattle.elf_format.specs.Answers.{Gives, borrowed};
ghost use Rattle.elf_format.specs.declared.view_fault.ViewFault.TheVariants.{Absent};

use crate::view_fault::ViewFault;
use memchr::memchr;

/// The text from a place on, up to its NUL (gABI, String Table); `Absent` without it. Takes no memory.
pub fn text(room: usize, bytes: &[u8], place: u64) -> Result<&[u8], ViewFault>
    requires { length bytes.now ≤ room }
    ensures shown { Gives borrowed result (text_at room (memory_of bytes.now) place) }
    ensures absent { IfErr result (λ fault. fault ≡ Absent) }
{
    if place >= bytes.len() as u64 {
        return Err(ViewFault::Absent);
    }
    let rest = &bytes[place as usize..];
    match memchr(0, rest) {
        Some(end) => Ok(&rest[..end]),
        None => Err(ViewFault::Absent),
    }
}
