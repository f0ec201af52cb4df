//! Runs of writes: what lies behind the old end, the pieces, and a shorter length last.
ghost use Rattle.std.specs.Prelude.{◌≡◌, ◌≢◌, ◌+◌, ◌*◌, ◌++◌, ◌<◌, ◌≤◌, ◌^◌, [], All, IfErr, IfOk, IsTrue, OnErr, OnOk, length, take};
ghost use Rattle.std.specs.IoError.{error_kind};
ghost use Rattle.byte_store.specs.Causes.{EndsBy};
ghost use Rattle.byte_store.specs.Counts.{Rises};
ghost use Rattle.byte_store.specs.Known.{Becomes, HasLength, Puts, PutsFirst};
ghost use Rattle.byte_store.specs.Laid.{Lays, LaysAndCuts, LaysFirst, LiesIn, changed, laid, patches_of};
ghost use Rattle.byte_store.specs.Fault.{BecomesLaid, IsIdle, IsLeftBy, IsLeftByGrowth, IsOkAndSame};

use crate::pieces::Piece;
use crate::stores::Store;
use std::error::Error;
use std::io::ErrorKind;
use std::{fmt, io};

/// How often a write is made, as long as it is interrupted: once, and 1,000 times again.
const MOST_TRIES: u32 = 1001;

/// What a run of writes does to a store.
#[derive(Clone, Copy)]
pub struct Changes<'a> {
    /// How long the store is.
    pub old_length: u64,
    /// What comes behind that.
    pub growth: &'a [u8],
    /// What stands within the old bytes or the growth, in the order in which it is written.
    pub pieces: &'a [Piece<'a>],
    /// How long the store is afterwards.
    pub new_length: u64,
}

/// What a run of writes that failed left in a store.
#[derive(Clone, Copy, Debug)]
pub enum Left {
    /// The bytes that the store had.
    Old,
    /// The bytes that it had, and behind them the first ones of what was to come there: the old length
    /// could not be set again.
    Longer,
    /// What was to come behind the bytes that it had, and the first bytes of the pieces, in order.
    Torn,
}

/// Why a run of writes failed, and what it left.
#[derive(Debug, Drop)]
pub struct WriteError {
    /// What the store has.
    pub left: Left,
    /// The error of the call that failed.
    pub error: io::Error,
}

impl fmt::Display for WriteError {
    fn fmt<W: fmt::Write>(&self, f: &mut fmt::Formatter<W>) -> fmt::Result {
        let error = &self.error;
        write!(f, "{error}")
    }
}

impl Error for WriteError {}

/// Makes changes to a store that is open for writing: first what lies behind its old end, then the
/// pieces, a shorter length last. Takes no memory. Where the growth can't be written, the old length is
/// set again. An interrupted write is made again, at most 1,000 times in a row; one that takes no byte
/// is an error. Changes that change nothing write nothing.
///
/// # Errors
///
/// The error of the call that failed, which the store counted; one of the kind `WriteZero` where a write took no
/// byte, and one of the kind `TimedOut` at the 1,001st interruption in a row. It tells what the store has.
pub fn write_changes<S: Store>(store: &mut S, changes: &Changes<'_>) -> Result<(), WriteError>
    requires open { IsTrue (S.is_writable store.old) }
    requires old { HasLength (S.contents store.old) changes.now.old_length }
    requires fits { changes.now.old_length + length changes.now.growth.now < 2 ^ 64 }
    requires inside { All (LiesIn (changes.now.old_length + length changes.now.growth.now))
        (patches_of changes.now.pieces.now) }
    requires end { changes.now.new_length ≤ changes.now.old_length + length changes.now.growth.now }
    ensures ok { OnOk result (Becomes
        (changed changes.now.growth.now (patches_of changes.now.pieces.now) changes.now.new_length)
        (S.contents store.old) (S.contents store.new)) }
    ensures err { IfErr result (λ e.
        IsLeftBy changes.now e.left (S.contents store.old) (S.contents store.new)) }
    ensures idle { IsIdle changes.now → IsOkAndSame result store.old store.new }
    ensures grows { S.failed store.old ≤ S.failed store.new }
    ensures cause { IfErr result (λ e. EndsBy S.may_fail_write S.may_take_none e.error
        (S.failed store.old) (S.failed store.new)) }
{
    grow(store, changes.old_length, changes.growth)?;
    let length = changes.old_length + changes.growth.len() as u64;
    match lay_and_cut(store, length, changes.pieces, changes.new_length) {
        Ok(()) => Ok(()),
        Err(error) => Err(WriteError {
            left: Left::Torn,
            error,
        }),
    }
}

/// Writes pieces, and then cuts the store where it has more bytes than it is to have.
fn lay_and_cut<S: Store>(
    store: &mut S,
    len: u64,
    pieces: &[Piece<'_>],
    new_length: u64,
) -> io::Result<()>
    requires open { IsTrue (S.is_writable store.old) }
    requires inside { All (LiesIn len) (patches_of pieces.now) }
    ensures ok { OnOk result (LaysAndCuts len (patches_of pieces.now) new_length
        (S.contents store.old) (S.contents store.new)) }
    ensures err { OnErr result
        (LaysFirst (patches_of pieces.now) (S.contents store.old) (S.contents store.new)) }
    ensures idle { length pieces.now ≡ 0 → len ≤ new_length
        → IsOkAndSame result store.old store.new }
    ensures grows { S.failed store.old ≤ S.failed store.new }
    ensures cause { IfErr result (λ e.
        EndsBy S.may_fail_write S.may_take_none e (S.failed store.old) (S.failed store.new)) }
{
    lay(store, pieces)?;
    if new_length < len {
        store.set_length(new_length)?;
    }
    Ok(())
}

/// Writes pieces over the bytes of a store that is open for writing and has so many, in order. Takes no
/// memory. An error leaves the first bytes of the pieces written, in order.
pub fn write_pieces<S: Store>(store: &mut S, len: u64, pieces: &[Piece<'_>]) -> io::Result<()>
    requires open { IsTrue (S.is_writable store.old) }
    requires old { HasLength (S.contents store.old) len }
    requires inside { All (LiesIn len) (patches_of pieces.now) }
    ensures ok { OnOk result (Becomes (laid (patches_of pieces.now))
        (S.contents store.old) (S.contents store.new)) }
    ensures err { OnErr result (BecomesLaid (patches_of pieces.now)
        (S.contents store.old) (S.contents store.new)) }
    ensures idle { length pieces.now ≡ 0 → IsOkAndSame result store.old store.new }
    ensures grows { S.failed store.old ≤ S.failed store.new }
    ensures cause { IfErr result (λ e.
        EndsBy S.may_fail_write S.may_take_none e (S.failed store.old) (S.failed store.new)) }
    ensures retried { IfErr result (λ e. error_kind e ≢ ErrorKind.Interrupted) }
{
    lay(store, pieces)
}

/// Writes pieces in order, wherever they lie.
fn lay<S: Store>(store: &mut S, pieces: &[Piece<'_>]) -> io::Result<()>
    requires open { IsTrue (S.is_writable store.old) }
    requires fits { All (LiesIn u64.MAX) (patches_of pieces.now) }
    ensures ok { OnOk result
        (Lays (patches_of pieces.now) (S.contents store.old) (S.contents store.new)) }
    ensures err { OnErr result
        (LaysFirst (patches_of pieces.now) (S.contents store.old) (S.contents store.new)) }
    ensures idle { length pieces.now ≡ 0 → IsOkAndSame result store.old store.new }
    ensures open { S.is_writable store.new ≡ S.is_writable store.old }
    ensures grows { S.failed store.old ≤ S.failed store.new }
    ensures cause { IfErr result (λ e.
        EndsBy S.may_fail_write S.may_take_none e (S.failed store.old) (S.failed store.new)) }
    ensures retried { IfErr result (λ e. error_kind e ≢ ErrorKind.Interrupted) }
{
    for piece in pieces {
        put_all(store, piece.offset, piece.bytes)?;
    }
    Ok(())
}

/// Writes what lies behind the old end, or sets the old length again.
fn grow<S: Store>(store: &mut S, old_length: u64, growth: &[u8]) -> Result<(), WriteError>
    requires open { IsTrue (S.is_writable store.old) }
    requires old { HasLength (S.contents store.old) old_length }
    requires fits { old_length + length growth.now < 2 ^ 64 }
    ensures ok { OnOk result (Becomes (λ bytes. bytes ++ growth.now)
        (S.contents store.old) (S.contents store.new)) }
    ensures err { IfErr result (λ e.
        IsLeftByGrowth growth.now e.left (S.contents store.old) (S.contents store.new)) }
    ensures idle { length growth.now ≡ 0 → IsOkAndSame result store.old store.new }
    ensures open { OnOk result (S.is_writable store.new ≡ S.is_writable store.old) }
    ensures grows { S.failed store.old ≤ S.failed store.new }
    ensures cause { IfErr result (λ e. EndsBy S.may_fail_write S.may_take_none e.error
        (S.failed store.old) (S.failed store.new)) }
{
    match put_all(store, old_length, growth) {
        Ok(()) => Ok(()),
        Err(error) => match store.set_length(old_length) {
            Ok(()) => Err(WriteError {
                left: Left::Old,
                error,
            }),
            Err(_) => Err(WriteError {
                left: Left::Longer,
                error,
            }),
        },
    }
}

/// Writes a part whole from an offset on. An error leaves its first bytes written.
fn put_all<S: Store>(store: &mut S, offset: u64, part: &[u8]) -> io::Result<()>
    requires open { IsTrue (S.is_writable store.old) }
    requires fits { offset + length part.now < 2 ^ 64 }
    ensures ok { OnOk result (Puts offset part.now (S.contents store.old) (S.contents store.new)) }
    ensures err { OnErr result
        (PutsFirst offset part.now (S.contents store.old) (S.contents store.new)) }
    ensures idle { length part.now ≡ 0 → IsOkAndSame result store.old store.new }
    ensures open { S.is_writable store.new ≡ S.is_writable store.old }
    ensures interruptions { OnOk result
        (Rises 0 (1000 * length part.now) (S.failed store.old) (S.failed store.new)) }
    ensures grows { S.failed store.old ≤ S.failed store.new }
    ensures cause { IfErr result (λ e.
        EndsBy S.may_fail_write S.may_take_none e (S.failed store.old) (S.failed store.new)) }
    ensures retried { IfErr result (λ e. error_kind e ≢ ErrorKind.Interrupted) }
{
    let mut done = 0;
    while done < part.len() {
        done += put_some(store, offset + done as u64, &part[done..])?;
    }
    Ok(())
}

/// Writes some bytes of a part, at least one.
fn put_some<S: Store>(store: &mut S, offset: u64, part: &[u8]) -> io::Result<usize>
    requires open { IsTrue (S.is_writable store.old) }
    requires some { 0 < length part.now }
    ensures count { IfOk result (λ n. (0 < n) × (n ≤ length part.now)) }
    ensures ok { IfOk result (λ n.
        Puts offset (take n part.now) (S.contents store.old) (S.contents store.new)) }
    ensures err { OnErr result (Puts offset [] (S.contents store.old) (S.contents store.new)) }
    ensures open { S.is_writable store.new ≡ S.is_writable store.old }
    ensures interruptions { OnOk result (Rises 0 1000 (S.failed store.old) (S.failed store.new)) }
    ensures failures { OnErr result (Rises 1 1001 (S.failed store.old) (S.failed store.new)) }
    ensures cause { IfErr result (λ e.
        EndsBy S.may_fail_write S.may_take_none e (S.failed store.old) (S.failed store.new)) }
    ensures retried { IfErr result (λ e. error_kind e ≢ ErrorKind.Interrupted) }
{
    for _tried in 0..MOST_TRIES {
        match store.write_at(offset, part) {
            Ok(0) => return Err(io::Error::new(ErrorKind::WriteZero, "a write took no byte")),
            Ok(count) => return Ok(count),
            Err(error) if error.kind() == ErrorKind::Interrupted => {}
            Err(error) => return Err(error),
        }
    }
    let message = "a write was interrupted 1001 times";
    Err(io::Error::new(ErrorKind::TimedOut, message))
}
