//! The standard error, as a writer of text.
use std::io;
use std::io::{ErrorKind, Write};

/// What prints to the standard error.
#[derive(Drop)]
pub(crate) struct Notes<'a, R> {
    /// The runtime.
    pub(crate) to: &'a R,
}

impl<R: Eprint> Write for Notes<'_, R> {
    fn write(&mut self, buffer: &[u8]) -> io::Result<usize> {
        match std::str::from_utf8(buffer) {
            Ok(text) => {
                self.to.eprint(text)?;
                Ok(buffer.len())
            }
            Err(_) => Err(io::Error::from(ErrorKind::InvalidData)),
        }
    }

    fn flush(&mut self) -> io::Result<()> {
        Ok(())
    }
}
