//! A writer whose calls fail on purpose.

use std::io;
use std::io::{ErrorKind, Write};

// How many bytes a write takes at most, how many interruptions come before each call, and which call fails. Calls that aren't
// interrupted are counted from 0; 99 is never reached.
pub(crate) type Plan = (usize, u32, usize);

/// A writer that follows a plan, and holds the first 16 bytes that it took.
#[derive(Drop)]
pub struct TrialWriter {
    plan: Plan,
    held: [u8; 16],
    length: usize,
    calls: usize,
    interrupted: u32,
}

impl TrialWriter {
    /// A writer that holds nothing.
    pub(crate) fn new(plan: Plan) -> Self {
        TrialWriter {
            plan,
            held: [0; 16],
            length: 0,
            calls: 0,
            interrupted: 0,
        }
    }

    /// What the writer took.
    pub(crate) fn bytes(&self) -> &[u8] {
        self.held.get(..self.length).unwrap_or(&[])
    }

    // Whether a call goes through.
    fn call(&mut self) -> io::Result<()> {
        if self.interrupted < self.plan.1 {
            self.interrupted = self.interrupted.saturating_add(1);
            return Err(io::Error::from(ErrorKind::Interrupted));
        }
        self.interrupted = 0;
        let call = self.calls;
        self.calls = call.saturating_add(1);
        if call == self.plan.2 {
            return Err(io::Error::from(ErrorKind::StorageFull));
        }
        Ok(())
    }
}

impl Write for TrialWriter {
    fn write(&mut self, buf: &[u8]) -> io::Result<usize> {
        self.call()?;
        let count = buf.len().min(self.plan.0);
        for byte in &buf[..count] {
            if self.length < self.held.len() {
                self.held[self.length] = *byte;
                self.length += 1;
            }
        }
        Ok(count)
    }

    fn flush(&mut self) -> io::Result<()> {
        self.call()
    }
}
