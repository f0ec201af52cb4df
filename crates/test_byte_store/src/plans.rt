//! What is done to a store that follows a plan, and what comes of it.
ghost use Rattle.std.specs.Prelude.{◌≤◌, All, IsTrue, length};
ghost use Rattle.byte_store.specs.Laid.{LiesIn, patch_of, patches_of};

use crate::support::{Runtime, same};
use crate::trial::{Calls, TrialStore};
use byte_store::{
    Changes, Left, Piece, ReplaceError, Span, Store, WriteError, composed_difference,
    make_difference, replace, write_changes,
};
use std::alloc::Global;

// Bytes that are composed of those of a store: so many, with spans and pieces.
#[derive(Clone, Copy)]
pub(crate) struct Composition {
    pub(crate) size: usize,
    pub(crate) kept: &'static [Span],
    pub(crate) cleared: &'static [Span],
    pub(crate) pieces: &'static [Piece<'static>],
}

// What is done to a store.
#[derive(Clone, Copy)]
pub(crate) enum Task<'a> {
    // The store is to hold other bytes.
    Replace(&'a [u8]),
    // The store is opened. It gets bytes behind its end, pieces, and another length.
    Change(&'static [u8], &'static [Piece<'static>], u64),
    // The store is to hold bytes that are composed of its own.
    Compose(Composition),
}

// What a task makes of a store's bytes by a plan: a word, the bytes, how many writes there were and how many failures.
pub(crate) type Row<'a> = (Calls, &'static str, &'a [u8], usize, u64);

// What is done to stores with these bytes, by plans. Some can't be opened for writing.
pub(crate) struct Group {
    pub(crate) what: &'static str,
    pub(crate) old: &'static [u8],
    pub(crate) task: Task<'static>,
    pub(crate) stays_closed: bool,
    pub(crate) rows: &'static [Row<'static>],
}

// What a run left that failed.
fn left(error: WriteError) -> &'static str {
    match error.left {
        Left::Old => "old",
        Left::Longer => "longer",
        Left::Torn => "torn",
    }
}

// What comes of a call that was refused memory.
const MEMORY: &str = "memory";

fn word(answer: Result<(), ReplaceError>) -> &'static str {
    match answer {
        Ok(()) => "done",
        Err(ReplaceError::Memory) => MEMORY,
        Err(ReplaceError::Write(error)) => left(error),
    }
}

// Whether each of these pieces lies within so many bytes.
fn is_each_inside(size: u64, pieces: &[Piece<'_>]) -> bool
    ensures { IsTrue result → All (λ piece. LiesIn size (patch_of piece)) pieces.now }
{
    pieces.iter().all(|piece| piece.offset <= size
        && piece.bytes.len() as u64 <= size - piece.offset)
}

// Whether what each of these pieces lays lies within so many bytes.
fn are_inside(size: u64, pieces: &[Piece<'_>]) -> bool
    ensures { IsTrue result → All (LiesIn size) (patches_of pieces.now) }
{
    is_each_inside(size, pieces)
}

// Changes a store of six bytes.
fn change(
    store: &mut TrialStore,
    growth: &[u8],
    pieces: &[Piece<'_>],
    new_length: u64,
) -> &'static str {
    let length = 6 + growth.len() as u64;
    if !are_inside(length, pieces) || new_length > length || store.open_for_writing().is_err() {
        return "not open";
    }
    let changes = Changes {
        old_length: 6,
        growth,
        pieces,
        new_length,
    };
    match write_changes(store, &changes) {
        Ok(()) => "done",
        Err(error) => left(error),
    }
}

// Composes bytes of those of a store.
fn compose(alloc: Global, store: &mut TrialStore, old: &[u8], new: Composition) -> &'static str {
    let Composition {
        size,
        kept,
        cleared,
        pieces,
    } = new;
    if !are_inside(size as u64, pieces) || old.len() > 100_000 {
        return "outside";
    }
    match composed_difference(alloc, old, size, kept, cleared, pieces) {
        Ok(difference) => word(make_difference(alloc, store, old.len() as u64, &difference)),
        Err(_) => MEMORY,
    }
}

fn done(alloc: Global, store: &mut TrialStore, old: &[u8], task: Task<'_>) -> &'static str {
    match task {
        Task::Replace(new) => word(replace(alloc, store, old, new)),
        Task::Change(growth, pieces, new_length) => change(store, growth, pieces, new_length),
        Task::Compose(new) => compose(alloc, store, old, new),
    }
}

// Does a task to a store. A call that was refused memory leaves the store as it was, and is made
// again.
fn retried(rt: &impl Runtime, store: &mut TrialStore, old: &[u8], task: Task<'_>) -> &'static str {
    let word = done(rt.alloc(), store, old, task);
    if word != MEMORY {
        return word;
    }
    let found = (store.inner.bytes.as_slice(), store.inner.is_open);
    same(rt, "refused memory", &found, &(old, false));
    done(rt.alloc(), store, old, task)
}

// Compares what comes of a store with these bytes.
pub(crate) fn follow(
    rt: &impl Runtime,
    old: &[u8],
    task: Task<'_>,
    stays_closed: bool,
    row: &Row<'_>,
) {
    let mut store = TrialStore::new(rt, old, row.0, stays_closed);
    let word = retried(rt, &mut store, old, task);
    expect(rt, &store, word, row);
}

fn expect(rt: &impl Runtime, store: &TrialStore, word: &'static str, row: &Row<'_>) {
    let found = (
        word,
        store.inner.bytes.as_slice(),
        store.writes,
        store.failures(),
    );
    same(rt, row.1, &found, &(row.1, row.2, row.3, row.4));
}

pub(crate) fn follow_each(rt: &impl Runtime, group: &Group) {
    for row in group.rows {
        follow(rt, group.old, group.task, group.stays_closed, row);
    }
}
