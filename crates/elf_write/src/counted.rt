//! Writes whose failures are counted.
ghost use Rattle.std.specs.Prelude.{◌≡◌, ◌≢◌, ◌*◌, ◌<◌, ◌≤◌, ⊤, ℕ, IfErr, IfOk, OnErr, OnOk, Result, length, take};
ghost use Rattle.std.specs.Io.{WritesAtMost};
ghost use Rattle.std.specs.Io.KnownBytes.{Appends, Keeps, WriteAppends};
ghost use Rattle.std.specs.IoError.{error_kind};
ghost use Rattle.std.specs.declared.io.Error.{Error};
ghost use Rattle.elf_write.specs.Counted.{CountsCall, CountsOne, CountsWrite, EndsBy, IsCause, IsOkAndSame, Rises, Stops, sink_failures, sink_inner};

use std::io;
use std::io::{ErrorKind, Write};

/// How often a write is made, as long as it is interrupted: once, and 1,000 times again.
const MOST_TRIES: u32 = 1001;

/// A writer that counts its failures.
pub trait CountedWrite: Write {
    // How many writes failed, up to `u64::MAX`.
    ghost failed: { Self → ℕ };

    // What `put` may answer, where that is known.
    ghost may_answer: { Result ℕ Error → Type 0 } = { λ _. ⊤ };

    /// Writes some of the bytes, as `write` does, and answers how many were taken. Counts one failure for
    /// each error, an interruption too, and for an answer of 0 where there are bytes. The count stays at
    /// `u64::MAX` once it is there.
    fn put(&mut self, buf: &[u8]) -> io::Result<usize>
        ensures bound { WritesAtMost result buf.now }
        ensures bytes { WriteAppends
            (Self.contents self.old) (Self.contents self.new) result buf.now }
        ensures counted { CountsWrite result (length buf.now) (failed self.old) (failed self.new) }
        ensures grows { failed self.old ≤ failed self.new }
        ensures answer { may_answer result };

    /// How many failures were counted, `u64::MAX` where there were as many or more.
    fn failures(&self) -> u64
        ensures { result ≡ failed self.now };
}

/// A writer with a count of its failures beside it.
#[derive(Drop)]
pub struct Sink<W> {
    inner: W,
    failures: u64,
}

impl<W> Sink<W> {
    /// Counts a writer's failures, 0 so far.
    pub fn new(inner: W) -> Self
        ensures inner { sink_inner result ≡ inner }
        ensures count { sink_failures result ≡ 0 }
    {
        Sink { inner, failures: 0 }
    }

    /// The writer alone.
    pub fn into_inner(self) -> W
        ensures { result ≡ sink_inner self }
    {
        self.inner
    }

    /// The writer, to look at.
    pub fn get_ref(&self) -> &W
        ensures { result.now ≡ sink_inner self.now }
    {
        &self.inner
    }

    // Counts one failure more.
    fn count_one(&mut self)
        ensures inner { sink_inner self.new ≡ sink_inner self.old }
        ensures count { CountsOne (sink_failures self.old) (sink_failures self.new) }
    {
        self.failures = self.failures.saturating_add(1);
    }
}

impl<W: Write> Sink<W> {
    // Writes some bytes, and counts a failure.
    fn write_some(&mut self, buf: &[u8]) -> io::Result<usize>
        ensures bound { WritesAtMost result buf.now }
        ensures bytes { WriteAppends
            (W.contents (sink_inner self.old)) (W.contents (sink_inner self.new)) result buf.now }
        ensures counted { CountsWrite result (length buf.now)
            (sink_failures self.old) (sink_failures self.new) }
    {
        match self.inner.write(buf) {
            Ok(0) if !buf.is_empty() => {
                self.count_one();
                Ok(0)
            }
            Ok(count) => Ok(count),
            Err(error) => {
                self.count_one();
                Err(error)
            }
        }
    }
}

impl<W: Write> Write for Sink<W> {
    ghost contents = { λ sink. W.contents (sink_inner sink) };

    fn write(&mut self, buf: &[u8]) -> io::Result<usize>
        ensures bound { WritesAtMost result buf.now }
        ensures bytes { WriteAppends
            (W.contents (sink_inner self.old)) (W.contents (sink_inner self.new)) result buf.now }
        ensures counted { CountsWrite result (length buf.now)
            (sink_failures self.old) (sink_failures self.new) }
    {
        self.write_some(buf)
    }

    fn flush(&mut self) -> io::Result<()>
        ensures bytes { Keeps
            (W.contents (sink_inner self.old)) (W.contents (sink_inner self.new)) }
        ensures counted { CountsCall result (sink_failures self.old) (sink_failures self.new) }
    {
        match self.inner.flush() {
            Ok(()) => Ok(()),
            Err(error) => {
                self.count_one();
                Err(error)
            }
        }
    }
}

impl<W: Write> CountedWrite for Sink<W> {
    ghost failed = { sink_failures };

    fn put(&mut self, buf: &[u8]) -> io::Result<usize> {
        self.write_some(buf)
    }

    fn failures(&self) -> u64 {
        self.failures
    }
}

/// Writes all bytes to a writer that counts its failures. Takes no memory. An interrupted write is made
/// again, at most 1,000 times in a row. No bytes call nothing.
///
/// # Errors
///
/// The writer's own error, one of the kind `WriteZero` where it took no byte, and one of the kind
/// `TimedOut` at the 1,001st interruption in a row. The first bytes may have been written, but not all.
pub fn write_all_counted<W: CountedWrite>(bytes: &[u8], w: &mut W) -> io::Result<()>
    ensures ok { OnOk result (Appends (W.contents w.old) (W.contents w.new) bytes.now) }
    ensures interruptions { OnOk result
        (Rises 0 (1000 * length bytes.now) (W.failed w.old) (W.failed w.new)) }
    ensures err { OnErr result (Stops bytes.now
        (W.contents w.old) (W.contents w.new) (W.failed w.old) (W.failed w.new)) }
    ensures cause { IfErr result (λ e.
        EndsBy W.may_answer W.contents W.failed e w.new) }
    ensures retried { IfErr result (λ e. error_kind e ≢ ErrorKind.Interrupted) }
    ensures idle { length bytes.now ≡ 0 → IsOkAndSame result w.old w.new }
{
    let mut done = 0;
    while done < bytes.len() {
        done += put_some(&bytes[done..], w)?;
    }
    Ok(())
}

/// Writes some bytes of a part, at least one.
fn put_some<W: CountedWrite>(part: &[u8], w: &mut W) -> io::Result<usize>
    requires { 0 < length part.now }
    ensures count { IfOk result (λ n. (0 < n) × (n ≤ length part.now)) }
    ensures ok { IfOk result (λ n.
        Appends (W.contents w.old) (W.contents w.new) (take n part.now)) }
    ensures interruptions { OnOk result (Rises 0 1000 (W.failed w.old) (W.failed w.new)) }
    ensures err { OnErr result (Keeps (W.contents w.old) (W.contents w.new)) }
    ensures failures { OnErr result (Rises 1 1001 (W.failed w.old) (W.failed w.new)) }
    ensures cause { IfErr result (λ e.
        IsCause W.may_answer e (W.failed w.old) (W.failed w.new)) }
    ensures retried { IfErr result (λ e. error_kind e ≢ ErrorKind.Interrupted) }
{
    for _tried in 0..MOST_TRIES {
        match w.put(part) {
            Ok(0) => return Err(io::Error::new(ErrorKind::WriteZero, "a write took no byte")),
            Ok(count) => return Ok(count),
            Err(error) if error.kind() == ErrorKind::Interrupted => {}
            Err(error) => return Err(error),
        }
    }
    let message = "a write was interrupted 1001 times";
    Err(io::Error::new(ErrorKind::TimedOut, message))
}
