//! Readers, read as far as the program looks at bytes.
ghost use Rattle.std.specs.Prelude.{◌<◌, ◌≤◌, IfErr, IfOk, vec_len};
ghost use Rattle.std.specs.Io.KnownBytes.{Consumes, IsAtEnd};
ghost use Rattle.arwen_cli.specs.Fault.{IsOfFile};

use arwen_cli_faults::ArwenError;
use byte_store::read_up_to;
use command_words::MOST_BYTES;
use std::alloc::Global;
use std::io::Read;

/// The bytes that a reader has, or the first `MOST_BYTES` where it has more. About `length` are
/// expected.
pub fn read_bytes<F: Read>(
    alloc: Global,
    reader: &mut F,
    length: u64,
) -> Result<Vec<u8>, ArwenError>
    ensures read { IfOk result (λ bytes.
        Consumes (F.remaining reader.old) (F.remaining reader.new) bytes.items) }
    ensures whole { IfOk result (λ bytes.
        vec_len bytes < MOST_BYTES → IsAtEnd (F.remaining reader.new)) }
    ensures bound { IfOk result (λ bytes. vec_len bytes ≤ MOST_BYTES) }
    ensures err { IfErr result (λ e. IsOfFile e) }
{
    Ok(read_up_to(alloc, reader, length, MOST_BYTES)?)
}
