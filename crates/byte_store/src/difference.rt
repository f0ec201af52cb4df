//! Stores whose bytes become others: what differs is written, and nothing else.
ghost use Rattle.std.specs.Prelude.{◌≡◌, ◌+◌, ◌<◌, ◌≤◌, ◌^◌, ◌↔◌, [], All, IfErr, IfOk, IsOkAnd, IsTrue, OnOk, length, slice_range};
ghost use Rattle.byte_store.specs.Causes.{EndsBy, IsNotWritten};
ghost use Rattle.byte_store.specs.Known.{Becomes, HasLength, IsAll};
ghost use Rattle.byte_store.specs.Laid.{LiesIn, changed, laid, patches_of};
ghost use Rattle.byte_store.specs.Composed.{IsChange, Stands};
ghost use Rattle.byte_store.specs.Fault.{IsIdle, IsLeftBy, IsOkAndSame};
ghost use Rattle.byte_store.specs.Replaced.{IsNotReplaced};

use crate::pieces::Piece;
use crate::stores::Store;
use crate::writing::{Changes, Left, WriteError, write_changes};
use std::alloc::{AllocError, AllocFailed, Global};
use std::error::Error;
use std::fmt;

/// How many bytes are compared at a time.
pub(crate) const BLOCK: usize = 4096;

/// Why the bytes of a store were not replaced.
#[derive(Debug, Drop)]
pub enum ReplaceError {
    /// There was no memory; nothing was written.
    Memory,
    /// A write failed; what it left is told.
    Write(WriteError),
}

impl From<AllocError> for ReplaceError {
    ghost use Rattle.byte_store.specs.declared.difference.ReplaceError.TheVariants.{Memory};

    ghost from_gives = { λ _ error. error ≡ Memory };

    fn from(_error: AllocError) -> ReplaceError {
        ReplaceError::Memory
    }
}

impl<T: Drop> From<AllocFailed<T>> for ReplaceError {
    ghost use Rattle.byte_store.specs.declared.difference.ReplaceError.TheVariants.{Memory};

    ghost from_gives = { λ _ error. error ≡ Memory };

    fn from(_error: AllocFailed<T>) -> ReplaceError {
        ReplaceError::Memory
    }
}

impl fmt::Display for ReplaceError {
    fn fmt<W: fmt::Write>(&self, f: &mut fmt::Formatter<W>) -> fmt::Result {
        match self {
            ReplaceError::Memory => write!(f, "out of memory"),
            ReplaceError::Write(error) => write!(f, "{error}"),
        }
    }
}

impl Error for ReplaceError {}

/// Turns the bytes of a store into new ones. Only blocks of 4,096 bytes that differ are written,
/// after all memory that is wanted is there: first what lies behind the old end, then the blocks,
/// a shorter length last (`write_changes`). Bytes that are the same do not open it for writing.
///
/// # Errors
///
/// `Memory`, where a growth was refused and nothing was written; `Write` with the error of the call that failed,
/// which the store counted, and with what it left.
pub fn replace<S: Store>(
    alloc: Global,
    store: &mut S,
    old: &[u8],
    new: &[u8],
) -> Result<(), ReplaceError>
    requires { IsAll (S.contents store.old) old.now }
    ensures ok { OnOk result
        (Becomes (λ _. new.now) (S.contents store.old) (S.contents store.new)) }
    ensures err { IfErr result
        (IsNotReplaced S.contents old.now new.now store.old store.new) }
    ensures idle { old.now ≡ new.now → IsOkAndSame result store.old store.new }
    ensures grows { S.failed store.old ≤ S.failed store.new }
    ensures cause { IfErr result (IsNotWritten S.may_fail_write S.may_take_none
        (S.failed store.old) (S.failed store.new)) }
{
    let common = old.len().min(new.len());
    let pieces = differences(alloc, &old[..common], &new[..common])?;
    let changes = Changes {
        old_length: old.len() as u64,
        growth: &new[common..],
        pieces: &pieces,
        new_length: new.len() as u64,
    };
    match open_and_write(store, &changes) {
        Ok(()) => Ok(()),
        Err(error) => Err(ReplaceError::Write(error)),
    }
}

/// Opens a store for writing, and makes changes to it. Changes that change nothing do not open it.
pub(crate) fn open_and_write<S: Store>(
    store: &mut S,
    changes: &Changes<'_>,
) -> Result<(), WriteError>
    requires old { HasLength (S.contents store.old) changes.now.old_length }
    requires fits { changes.now.old_length + length changes.now.growth.now < 2 ^ 64 }
    requires inside { All (LiesIn (changes.now.old_length + length changes.now.growth.now))
        (patches_of changes.now.pieces.now) }
    requires end { changes.now.new_length ≤ changes.now.old_length + length changes.now.growth.now }
    ensures ok { OnOk result (Becomes
        (changed changes.now.growth.now (patches_of changes.now.pieces.now) changes.now.new_length)
        (S.contents store.old) (S.contents store.new)) }
    ensures err { IfErr result (λ e.
        IsLeftBy changes.now e.left (S.contents store.old) (S.contents store.new)) }
    ensures idle { IsIdle changes.now → IsOkAndSame result store.old store.new }
    ensures grows { S.failed store.old ≤ S.failed store.new }
    ensures cause { IfErr result (λ e. EndsBy S.may_fail_write S.may_take_none e.error
        (S.failed store.old) (S.failed store.new)) }
{
    if changes.growth.is_empty()
        && changes.pieces.is_empty()
        && changes.old_length <= changes.new_length
    {
        return Ok(());
    }
    match store.open_for_writing() {
        Ok(()) => write_changes(store, changes),
        Err(error) => Err(WriteError {
            left: Left::Old,
            error,
        }),
    }
}

/// The pieces of new bytes that turn as many old ones into them: runs of blocks that differ.
pub(crate) fn differences<'a>(
    alloc: Global,
    old: &[u8],
    new: &'a [u8],
) -> Result<Vec<Piece<'a>>, AllocFailed<Piece<'a>>>
    requires { length old.now ≡ length new.now }
    ensures inside { IfOk result (λ pieces.
        All (LiesIn (length old.now)) (patches_of pieces.items)) }
    ensures makes { IfOk result (λ pieces.
        laid (patches_of pieces.items) old.now ≡ new.now) }
    ensures stand { IfOk result (λ pieces. All (Stands new.now) (patches_of pieces.items)) }
    ensures changes { IfOk result (λ pieces. All (IsChange old.now) (patches_of pieces.items)) }
    ensures idle { old.now ≡ new.now → IsOkAnd result (λ pieces. pieces.items ≡ []) }
{
    let mut pieces = Vec::new(alloc);
    let mut at = 0;
    while at < new.len() {
        let next = end_of_block(at, new.len());
        if is_same(old, new, at, next) {
            at = next;
        } else {
            let end = end_of_run(old, new, next);
            pieces.push(Piece {
                offset: at as u64,
                bytes: between(new, at, end),
            })?;
            at = end;
        }
    }
    Ok(pieces)
}

/// Where the run of blocks that differ ends which begins at a position. It may have no block.
fn end_of_run(old: &[u8], new: &[u8], begin: usize) -> usize
    requires same { length old.now ≡ length new.now }
    requires within { begin ≤ length new.now }
    ensures begin { begin ≤ result }
    ensures end { result ≤ length new.now }
{
    let mut end = begin;
    while end < new.len() {
        let next = end_of_block(end, new.len());
        if is_same(old, new, end, next) {
            return end;
        }
        end = next;
    }
    end
}

/// Where the block ends that begins at a position of so many bytes.
fn end_of_block(at: usize, len: usize) -> usize
    requires { at < len }
    ensures begin { at < result }
    ensures end { result ≤ len }
{
    at + BLOCK.min(len - at)
}

/// Whether two lists of bytes are the same between two positions.
fn is_same(old: &[u8], new: &[u8], at: usize, end: usize) -> bool
    requires order { at ≤ end }
    requires old { end ≤ length old.now }
    requires new { end ≤ length new.now }
    ensures { IsTrue result ↔ slice_range old.now at end ≡ slice_range new.now at end }
{
    between(old, at, end) == between(new, at, end)
}

/// The bytes between two positions.
fn between(bytes: &[u8], start: usize, end: usize) -> &[u8]
    requires order { start ≤ end }
    requires within { end ≤ length bytes.now }
    ensures { result.now ≡ slice_range bytes.now start end }
{
    &bytes[start..end]
}
