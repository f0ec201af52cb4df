//! The standard error: as a writer of text, and told lines.
use std::io;
use std::io::{ErrorKind, Write};

/// What prints to the standard error.
#[derive(Drop)]
pub struct StandardError<'a, R> {
    /// The runtime.
    pub to: &'a R,
}

impl<R: Eprint> Write for StandardError<'_, R> {
    fn write(&mut self, buffer: &[u8]) -> io::Result<usize> {
        match std::str::from_utf8(buffer) {
            Ok(text) => {
                self.to.eprint(text)?;
                Ok(buffer.len())
            }
            Err(_) => Err(io::Error::from(ErrorKind::InvalidData)),
        }
    }

    fn flush(&mut self) -> io::Result<()> {
        Ok(())
    }
}

/// Prints the lines of notes on the standard error, where there are any. It doesn't matter whether that fails.
pub fn tell<R: Eprint>(rt: &R, text: &str) {
    if !text.is_empty() {
        let _ = rt.eprint(text);
    }
}
