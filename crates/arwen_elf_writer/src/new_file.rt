//! Files that are created for bytes.
ghost use Rattle.std.specs.Prelude.{IfErr, IfOk};
ghost use Rattle.std.specs.Io.KnownBytes.{Appends};
ghost use Rattle.arwen_elf_writer.specs.NewFile.{HoldsBytes, IsCutOff, StopsIn};

use byte_store::Creates;
use elf_apply::error::ElfError;
use elf_write::{Sink, write_all_counted};
use std::io::Write;

/// Why bytes were not written to a new file.
#[derive(Drop)]
pub struct NotWritten<W> {
    /// The cause.
    pub error: ElfError,
    /// The file, with the first of the bytes and the count of the writes that failed; none where no file was created.
    pub file: Option<Sink<W>>,
}

// Creates a file, and writes bytes to it.
pub(crate) fn write_new<'p, C: Creates<'p>>(
    files: &C,
    path: &'p str,
    bytes: &[u8],
) -> Result<C::Created, NotWritten<C::Created>>
    ensures written { IfOk result (λ file.
        HoldsBytes C.is_new bytes.now (C.Created.contents file)) }
    ensures err { IfErr result (λ refused. IsCutOff C.is_new C.Created.contents
        (C.may_fail files.now path.now) bytes.now refused.error refused.file) }
{
    match files.create(path) {
        Ok(file) => write_whole(file, bytes),
        Err(error) => Err(NotWritten {
            error: ElfError::Io(error),
            file: None,
        }),
    }
}

// Writes all bytes to a file.
fn write_whole<W: Write + Drop>(file: W, bytes: &[u8]) -> Result<W, NotWritten<W>>
    ensures written { IfOk result (λ made.
        Appends (W.contents file) (W.contents made) bytes.now) }
    ensures err { IfErr result (λ refused.
        StopsIn W.contents bytes.now (W.contents file) refused.error refused.file) }
{
    let mut counted = Sink::new(file);
    match write_all_counted(bytes, &mut counted) {
        Ok(()) => Ok(counted.into_inner()),
        Err(error) => Err(NotWritten {
            error: ElfError::Io(error),
            file: Some(counted),
        }),
    }
}
