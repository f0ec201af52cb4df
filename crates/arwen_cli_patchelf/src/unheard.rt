//! A writer of what nobody hears.

use std::io;
use std::io::Write;

/// Takes all bytes, and keeps none.
#[derive(Clone, Copy)]
pub(crate) struct Unheard;

impl Write for Unheard {
    fn write(&mut self, buffer: &[u8]) -> io::Result<usize> {
        Ok(buffer.len())
    }

    fn flush(&mut self) -> io::Result<()> {
        Ok(())
    }
}
