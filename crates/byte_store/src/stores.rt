//! What can be read and written at offsets.
ghost use Rattle.std.specs.Prelude.{◌≡◌, ◌<◌, ℕ, Bool, List, Option, None, IfErr, IfOk, IsTrue, OnErr, OnOk, length, ⊤};
ghost use Rattle.std.specs.Io.{ReadsAtMost, WritesAtMost};
ghost use Rattle.std.specs.declared.io.Error.{Error};
ghost use Rattle.byte_store.specs.Counts.{CountsCall, CountsWrite};
ghost use Rattle.byte_store.specs.Known.{HasLength, ReadsFrom, Resizes, Stays, WritesAt};

use std::io;

/// A thing with a length that holds bytes at offsets: a file, or bytes in memory. It is opened for
/// reading at first. An error of any call changes no byte. Each call counts one failure for an error
/// that it answers, an interruption too, and counts nothing else; `write_at` says what else it counts.
/// The count stays at `u64::MAX` once it is there.
pub trait Store {
    // The bytes, where they are known.
    ghost contents: { Self → Option (List ℕ) } = { λ _. None };

    // The store has been opened for writing.
    ghost is_writable: { Self → Bool };

    // How many calls failed, up to `u64::MAX`.
    ghost failed: { Self → ℕ };

    // The errors that `length` and `read_at` may answer, where that is known.
    ghost may_fail_read: { Error → Type 0 } = { λ _. ⊤ };

    // The errors that the other calls may answer, where that is known.
    ghost may_fail_write: { Error → Type 0 } = { λ _. ⊤ };

    // Whether a write of bytes may take none of them.
    ghost may_take_none: { Type 0 } = { ⊤ };

    /// How many bytes it has. Devices and pipes answer 0.
    fn length(&mut self) -> io::Result<u64>
        ensures length { IfOk result (λ n. HasLength (contents self.old) n) }
        ensures kept { Stays (contents self.old) (contents self.new) }
        ensures open { is_writable self.new ≡ is_writable self.old }
        ensures counted { CountsCall result (failed self.old) (failed self.new) }
        ensures cause { IfErr result (λ e. may_fail_read e) };

    /// Puts bytes from an offset on at the front of a buffer, and answers how many: 0 only at the end,
    /// or where the buffer has no room.
    fn read_at(&mut self, offset: u64, buffer: &mut [u8]) -> io::Result<usize>
        ensures bound { ReadsAtMost result buffer.new }
        ensures bytes { ReadsFrom offset result (contents self.old) buffer.new }
        ensures kept { Stays (contents self.old) (contents self.new) }
        ensures open { is_writable self.new ≡ is_writable self.old }
        ensures counted { CountsCall result (failed self.old) (failed self.new) }
        ensures cause { IfErr result (λ e. may_fail_read e) };

    /// Opens the store for writing too, without creating or cutting it.
    fn open_for_writing(&mut self) -> io::Result<()>
        ensures open { OnOk result (IsTrue (is_writable self.new)) }
        ensures kept { Stays (contents self.old) (contents self.new) }
        ensures counted { CountsCall result (failed self.old) (failed self.new) }
        ensures cause { IfErr result (λ e. may_fail_write e) };

    /// Writes bytes from an offset on, and answers how many it took. An answer of 0 where there are bytes
    /// counts as a failure too.
    fn write_at(&mut self, offset: u64, bytes: &[u8]) -> io::Result<usize>
        requires { IsTrue (is_writable self.old) }
        ensures bound { WritesAtMost result bytes.now }
        ensures bytes { WritesAt offset bytes.now result (contents self.old) (contents self.new) }
        ensures open { is_writable self.new ≡ is_writable self.old }
        ensures counted { CountsWrite result (length bytes.now)
            (failed self.old) (failed self.new) }
        ensures none { IfOk result (λ n. n ≡ 0 → 0 < length bytes.now → may_take_none) }
        ensures cause { IfErr result (λ e. may_fail_write e) };

    /// Cuts the store to a length, or puts zeros behind it up to there.
    fn set_length(&mut self, length: u64) -> io::Result<()>
        requires { IsTrue (is_writable self.old) }
        ensures bytes { Resizes length result (contents self.old) (contents self.new) }
        ensures open { is_writable self.new ≡ is_writable self.old }
        ensures counted { CountsCall result (failed self.old) (failed self.new) }
        ensures cause { IfErr result (λ e. may_fail_write e) };

    /// How many failures were counted, `u64::MAX` where there were as many or more.
    fn failures(&self) -> u64
        ensures { result ≡ failed self.now };
}
