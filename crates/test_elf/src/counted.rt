//! Writes that are counted, each of whose calls fails in turn.

use crate::support::same;
use crate::trial::{Plan, TrialWriter};
use elf_write::{CountedWrite, Sink, write_all_counted};
use std::io;
use std::io::{ErrorKind, Write};

// What comes of bytes by a plan: a word, the bytes that were taken, and the count.
type Row = (Plan, &'static [u8], &'static str, &'static [u8], u64);

fn word(answer: io::Result<()>) -> &'static str {
    match answer {
        Ok(()) => "done",
        Err(error) => match error.kind() {
            ErrorKind::StorageFull => "full",
            ErrorKind::TimedOut => "interrupted",
            ErrorKind::WriteZero => "took none",
            _ => "other",
        },
    }
}

static ROWS: [Row; 17] = [
    // Some bytes at a time.
    ((9, 0, 99), b"abcdef", "done", b"abcdef", 0),
    ((4, 0, 99), b"abcdef", "done", b"abcdef", 0),
    ((1, 0, 99), b"abcdef", "done", b"abcdef", 0),
    ((0, 0, 99), b"abcdef", "took none", b"", 1),
    // Interrupted writes.
    ((9, 1000, 99), b"abcdef", "done", b"abcdef", 1000),
    ((2, 1000, 99), b"abcdef", "done", b"abcdef", 3000),
    ((9, 1001, 99), b"abcdef", "interrupted", b"", 1001),
    ((0, 1000, 99), b"abcdef", "took none", b"", 1001),
    ((2, 3, 1), b"abcdef", "full", b"ab", 7),
    // Each write fails.
    ((1, 0, 0), b"abcdef", "full", b"", 1),
    ((1, 0, 1), b"abcdef", "full", b"a", 1),
    ((1, 0, 2), b"abcdef", "full", b"ab", 1),
    ((1, 0, 3), b"abcdef", "full", b"abc", 1),
    ((1, 0, 4), b"abcdef", "full", b"abcd", 1),
    ((1, 0, 5), b"abcdef", "full", b"abcde", 1),
    ((1, 0, 6), b"abcdef", "done", b"abcdef", 0),
    // Without bytes there is no call, which would fail.
    ((0, 0, 0), b"", "done", b"", 0),
];

#[test]
fn counted_writes(rt: HostRuntime) {
    for (i, (plan, bytes, want, taken, count)) in ROWS.iter().enumerate() {
        let mut sink = Sink::new(TrialWriter::new(*plan));
        let word = word(write_all_counted(bytes, &mut sink));
        let found = (i, word, sink.get_ref().bytes(), sink.failures());
        same(&rt, "row", &found, &(i, *want, *taken, *count));
    }
}

// A write that takes no byte, one that has none, and one that fails.
#[test]
fn counts_what_fails(rt: HostRuntime) {
    let mut sink = Sink::new(TrialWriter::new((0, 0, 2)));
    let none = (sink.put(b"ab").ok(), sink.failures());
    same(&rt, "takes none", &none, &(Some(0), 1));
    let empty = (sink.write(b"").ok(), sink.failures());
    same(&rt, "has none", &empty, &(Some(0), 1));
    let fault = (sink.write(b"ab").ok(), sink.failures());
    same(&rt, "fails", &fault, &(None, 2));
}

// A call without bytes that fails, and one that doesn't.
#[test]
fn counts_a_flush(rt: HostRuntime) {
    let mut sink = Sink::new(TrialWriter::new((9, 0, 0)));
    let fault = (sink.flush().is_ok(), sink.failures());
    same(&rt, "fails", &fault, &(false, 1));
    let flushed = (sink.flush().is_ok(), sink.failures());
    same(&rt, "flushes", &flushed, &(true, 1));
}

#[test]
fn gives_the_writer_back(rt: HostRuntime) {
    let mut sink = Sink::new(TrialWriter::new((2, 0, 99)));
    let word = word(sink.write_all(b"abcdef"));
    let writer = sink.into_inner();
    let want = ("done", b"abcdef".as_slice());
    same(&rt, "bytes", &(word, writer.bytes()), &want);
}
