//! Batch after batch in one call.

use super::{Edit, File, Kind, agrees, all_owned, parse, seen};
use crate::support::{Runtime, same, shows, wants_memory};
use arwen_macho::macho::{MachoBatchError, MachoEdit};
use std::alloc::{AllocError, Global};

// A file without commands, and room for 32 bytes of them.
const EMPTY: &[u8; 64] =
    b"\xcf\xfa\xed\xfe\x07\0\0\x01\x03\0\0\0\x06\0\0\0\0\0\0\0\0\0\0\0\x85\0\0\0\x09\0\0\0\
\0\0\0\0\0\0\0\0\0\0\0\0\0\0\0\0\0\0\0\0\0\0\0\0\0\0\0\0\0\0\0\0";

// The file with the command that the batches leave.
const EDITED: &[u8; 64] =
    b"\xcf\xfa\xed\xfe\x07\0\0\x01\x03\0\0\0\x06\0\0\0\x01\0\0\0\x10\0\0\0\x85\0\0\0\x09\0\0\0\
\x1c\0\0\x80\x10\0\0\0\x0c\0\0\0/a\0\0\0\0\0\0\0\0\0\0\0\0\0\0\0\0\0\0";

// What the batches answer.
const ANSWERS: &str = "[Ok(()), \
Err(MachoBatchError { index: 1, fault: NoRoom { needed: 80, available: 64 } }), \
Ok(()), \
Ok(()), \
Err(MachoBatchError { index: 0, fault: RpathMissing(\"/zz\") })]";

fn batches(alloc: Global) -> Result<Vec<Vec<MachoEdit>>, AllocError> {
    let all: [&[Edit<'_>]; 5] = [
        &[Edit::Add("/usr/local/lib")],
        &[Edit::Add("/a")],
        &[],
        &[Edit::Add("/a"), Edit::Remove("/usr/local/lib")],
        &[Edit::Remove("/zz")],
    ];
    let mut batches = Vec::new(alloc);
    for edits in all {
        batches.push(all_owned(alloc, edits)?)?;
    }
    Ok(batches)
}

type Answers = Vec<Result<(), MachoBatchError>>;

fn apply_each(
    alloc: Global,
    file: &mut File<'_>,
    batches: &[Vec<MachoEdit>],
) -> Result<Answers, AllocError> {
    match file {
        File::Any(any) => any.apply_each(alloc, batches),
        _ => Err(AllocError),
    }
}

// What batches answer in the file without commands, and the bytes that they leave. They are made once more where
// there was no memory for the answers, and then nothing was applied.
fn applied(rt: &impl Runtime, batches: &[Vec<MachoEdit>]) -> (Answers, Vec<u8>) {
    let mut file = sure!(rt; parse(rt.alloc(), Kind::Any, EMPTY));
    let answers = match apply_each(rt.alloc(), &mut file, batches) {
        Ok(answers) => answers,
        Err(_) => {
            agrees(rt, "unchanged", &file, EMPTY);
            apply_each(rt.alloc(), &mut file, batches).expect(rt, "memory")
        }
    };
    let (_, bytes) = sure!(rt; seen(rt.alloc(), &file));
    agrees(rt, "lists", &file, &bytes);
    (answers, bytes)
}

// Compares bytes with those that all batches leave but one.
fn leaves(rt: &impl Runtime, place: usize, bytes: &[u8]) {
    let mut all = sure!(rt; batches(rt.alloc()));
    if let Some(batch) = all.get_mut(place) {
        *batch = Vec::new(rt.alloc());
    }
    let (_, found) = applied(rt, &all);
    same(rt, "without a refused batch", &found.as_slice(), &bytes);
}

// A batch that was refused memory changed nothing, and then all are made once more.
#[test]
fn applies_each(rt: HostRuntime) {
    let all = sure!(&rt; batches(rt.alloc()));
    let (mut answers, mut bytes) = applied(&rt, &all);
    if let Some(place) = answers.iter().position(|answer| wants_memory(&rt, answer)) {
        leaves(&rt, place, &bytes);
        (answers, bytes) = applied(&rt, &all);
    }
    shows(&rt, "answers", &answers, ANSWERS);
    same(&rt, "bytes", &bytes.as_slice(), &EDITED.as_slice());
}
