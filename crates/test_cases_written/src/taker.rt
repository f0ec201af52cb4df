//! A writer that takes so many bytes and then fails.
ghost use Rattle.std.specs.Prelude.{◌≡◌, None, Some, if◌then◌else◌, true};

use std::io;
use std::io::{ErrorKind, Write};

/// Compares what the writer takes with what it wants.
#[derive(Drop)]
pub(crate) struct Taker<'a> {
    want: &'a [u8],
    room: usize,
    step: usize,
    length: usize,
    is_same: bool,
}

impl<'a> Taker<'a> {
    /// A writer that wants these bytes, and takes `room` of them at most, and `step` at a time.
    pub(crate) fn new(want: &'a [u8], room: usize, step: usize) -> Self
        ensures { result ≡ record {
          want = want.entry;
          room = room;
          step = step;
          length = 0;
          is_same = true;
        } }
    {
        Taker {
            want,
            room,
            step,
            length: 0,
            is_same: true,
        }
    }

    /// How many bytes it took, if they are the first ones of those that it wants.
    pub(crate) fn taken(&self) -> Option<usize>
        ensures { result ≡ (if self.now.is_same then Some self.now.length else None) }
    {
        if self.is_same {
            Some(self.length)
        } else {
            None
        }
    }
}

impl Write for Taker<'_> {
    fn write(&mut self, buf: &[u8]) -> io::Result<usize> {
        let count = buf.len().min(self.step).min(self.room);
        if count == 0 {
            return Err(io::Error::from(ErrorKind::StorageFull));
        }
        let end = self.length.saturating_add(count);
        if self.want.get(self.length..end) != buf.get(..count) {
            self.is_same = false;
        }
        self.length = end;
        self.room -= count;
        Ok(count)
    }

    fn flush(&mut self) -> io::Result<()> {
        Ok(())
    }
}
