//! Bytes for writers whose failures nobody counts.
ghost use Rattle.std.specs.Prelude.{◌<◌, ◌≤◌, IfOk, OnErr, OnOk, length, take};
ghost use Rattle.std.specs.Io.KnownBytes.{Appends, Keeps};
ghost use Rattle.arwen_elf.specs.Prints.{IsCutShort};

use std::io;
use std::io::{ErrorKind, Write};

/// How often a write is made, as long as it is interrupted: once, and 1,000 times again.
const MOST_TRIES: u32 = 1001;

/// Writes all bytes to a writer. Takes no memory. An interrupted write is made again, at most 1,000 times in a row.
///
/// # Errors
///
/// The writer's own error, one of the kind `WriteZero` where it took no byte, and one of the kind `TimedOut` at the
/// 1,001st interruption in a row. The first bytes may have been written, but not all.
pub fn write_whole<W: Write>(bytes: &[u8], out: &mut W) -> io::Result<()>
    ensures ok { OnOk result (Appends (W.contents out.old) (W.contents out.new) bytes.now) }
    ensures err { OnErr result (IsCutShort bytes.now (W.contents out.old) (W.contents out.new)) }
{
    let mut done = 0;
    while done < bytes.len() {
        done += write_some(&bytes[done..], out)?;
    }
    Ok(())
}

/// Writes some bytes of a part, at least one.
fn write_some<W: Write>(part: &[u8], out: &mut W) -> io::Result<usize>
    requires { 0 < length part.now }
    ensures count { IfOk result (λ n. (0 < n) × (n ≤ length part.now)) }
    ensures ok { IfOk result (λ n.
        Appends (W.contents out.old) (W.contents out.new) (take n part.now)) }
    ensures err { OnErr result (Keeps (W.contents out.old) (W.contents out.new)) }
{
    for _tried in 0..MOST_TRIES {
        match out.write(part) {
            Ok(0) => return Err(io::Error::new(ErrorKind::WriteZero, "a write took no byte")),
            Ok(count) => return Ok(count),
            Err(error) if error.kind() == ErrorKind::Interrupted => {}
            Err(error) => return Err(error),
        }
    }
    let message = "a write was interrupted 1001 times";
    Err(io::Error::new(ErrorKind::TimedOut, message))
}
