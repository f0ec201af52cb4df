//! Edits of files, call by call, in each kind of container: what each call answers, and the bytes that it leaves.

mod batches;
mod rows;

use crate::fat::joined;
use crate::support::{Runtime, granted, put, same, shows, wants_memory};
use arwen_macho::macho::{
    FatMachoContainer, MachO, MachoBatchError, MachoContainer, MachoEdit, MachoError, MachoType,
    SingleMachO,
};
use std::alloc::{AllocError, Global};
use std::fmt::Write;

// An edit with its texts.
#[derive(Clone, Copy)]
pub(crate) enum Edit<'e> {
    Add(&'e str),
    Change(&'e str, &'e str),
    Remove(&'e str),
    Id(&'e str),
    Name(&'e str, &'e str),
}

// Edits that are made in one call (one by its own method, others by `apply`), what the call answers, and the bytes
// that it changes, at their places.
#[derive(Clone, Copy)]
pub(crate) struct Step<'e> {
    pub(crate) edits: &'e [Edit<'e>],
    pub(crate) answer: &'e str,
    pub(crate) changes: &'e [(usize, &'e [u8])],
}

// A thin file: its length, and bytes at their places among zeros.
#[derive(Clone, Copy)]
struct Sample<'e> {
    length: usize,
    parts: &'e [(usize, &'e [u8])],
}

// The kind of a container.
#[derive(Clone, Copy)]
pub(crate) enum Kind {
    Single,
    Fat,
    Any,
}

// A container of a file under edits.
#[derive(Drop)]
enum File<'a> {
    Single(SingleMachO<'a>),
    Fat(FatMachoContainer<'a>),
    Any(MachoContainer<'a>),
}

// An edit by its own method.
macro_rules! make_edit {
    ($file:expr, $alloc:expr, $edit:expr) => {
        match $edit {
            Edit::Add(new) => $file.add_rpath($alloc, new),
            Edit::Change(old, new) => $file.change_rpath($alloc, old, new),
            Edit::Remove(old) => $file.remove_rpath($alloc, old),
            Edit::Id(new) => $file.change_install_id($alloc, new),
            Edit::Name(old, new) => $file.change_install_name($alloc, old, new),
        }
    };
}

fn parse<'a>(alloc: Global, kind: Kind, bytes: &'a [u8]) -> Result<File<'a>, MachoError> {
    match kind {
        Kind::Single => Ok(File::Single(SingleMachO::parse(alloc, bytes)?)),
        Kind::Fat => Ok(File::Fat(FatMachoContainer::parse(alloc, bytes)?)),
        Kind::Any => Ok(File::Any(MachoContainer::parse(alloc, bytes)?)),
    }
}

fn make_edit(alloc: Global, file: &mut File<'_>, edit: Edit<'_>) -> Result<(), MachoError> {
    match file {
        File::Single(single) => make_edit!(single, alloc, edit),
        File::Fat(fat) => make_edit!(fat, alloc, edit),
        File::Any(any) => make_edit!(any, alloc, edit),
    }
}

fn into_bytes(alloc: Global, file: File<'_>) -> Result<Vec<u8>, AllocError> {
    match file {
        File::Single(single) => single.into_bytes(alloc),
        File::Fat(fat) => fat.into_bytes(alloc),
        File::Any(any) => any.into_bytes(alloc),
    }
}

// Puts the list and the counts of a thin file behind lines.
fn list_thin(lines: &mut String, file: &MachO<'_>) -> Result<(), AllocError> {
    write!(lines, "{:?} {:?} ", file.header(), file.load_commands())?;
    write!(lines, "{}\n", file.first_content())
}

// Puts the list and the counts of each slice of a fat file behind lines.
fn list_fat(lines: &mut String, file: &FatMachoContainer<'_>) -> Result<(), AllocError> {
    for slice in file.archs() {
        list_thin(lines, slice.inner().inner())?;
    }
    Ok(())
}

// Puts the list and the counts of each thin file in a container behind lines.
fn list(lines: &mut String, file: &File<'_>) -> Result<(), AllocError> {
    match file {
        File::Single(single) => list_thin(lines, single.inner()),
        File::Fat(fat) => list_fat(lines, fat),
        File::Any(any) => match any.inner() {
            MachoType::SingleArch(single) => list_thin(lines, single.inner()),
            MachoType::Fat(fat) => list_fat(lines, fat),
        },
    }
}

// What is seen of a container: its lists and counts, and its bytes.
type Seen = (String, Vec<u8>);

fn seen(alloc: Global, file: &File<'_>) -> Result<Seen, AllocError> {
    let mut lines = String::new(alloc);
    list(&mut lines, file)?;
    let bytes = match file {
        File::Single(single) => single.bytes(),
        File::Fat(fat) => fat.bytes(),
        File::Any(any) => any.bytes(),
    };
    Ok((lines, Vec::from_slice(alloc, bytes)?))
}

// What a parse of bytes finds.
fn found(alloc: Global, bytes: &[u8]) -> Result<Seen, MachoError> {
    let file = parse(alloc, Kind::Any, bytes)?;
    Ok(seen(alloc, &file)?)
}

// Compares the bytes of a container, and its lists and counts with those that a parse of the bytes finds.
fn agrees(rt: &impl Runtime, what: &str, file: &File<'_>, want: &[u8]) {
    let shown = sure!(rt; seen(rt.alloc(), file));
    same(rt, what, &shown.1.as_slice(), &want);
    same(rt, what, &shown, &sure!(rt; found(rt.alloc(), want)));
}

// An edit that owns its texts.
fn owned(alloc: Global, edit: Edit<'_>) -> Result<MachoEdit, AllocError> {
    let (first, second) = match edit {
        Edit::Add(text) | Edit::Remove(text) | Edit::Id(text) => (text, ""),
        Edit::Change(old, new) | Edit::Name(old, new) => (old, new),
    };
    let first = String::from_str(alloc, first)?;
    let second = String::from_str(alloc, second)?;
    Ok(match edit {
        Edit::Add(_) => MachoEdit::AddRpath(first),
        Edit::Change(_, _) => MachoEdit::ChangeRpath(first, second),
        Edit::Remove(_) => MachoEdit::RemoveRpath(first),
        Edit::Id(_) => MachoEdit::ChangeInstallId(first),
        Edit::Name(_, _) => MachoEdit::ChangeInstallName(first, second),
    })
}

fn all_owned(alloc: Global, edits: &[Edit<'_>]) -> Result<Vec<MachoEdit>, AllocError> {
    let mut batch = Vec::new(alloc);
    for edit in edits {
        batch.push(owned(alloc, *edit)?)?;
    }
    Ok(batch)
}

pub(crate) fn in_batch(fault: MachoError) -> MachoBatchError {
    MachoBatchError { index: 0, fault }
}

// One edit by its own method, others by `apply`.
fn call(
    alloc: Global,
    file: &mut File<'_>,
    edits: &[Edit<'_>],
    batch: &[MachoEdit],
) -> Result<(), MachoBatchError> {
    if let [edit] = edits {
        return make_edit(alloc, file, *edit).map_err(in_batch);
    }
    match file {
        File::Single(single) => single.apply(alloc, batch),
        File::Fat(fat) => fat.apply(alloc, batch),
        File::Any(any) => any.apply(alloc, batch),
    }
}

// The call once more where it was refused memory, which leaves all that is seen as it was.
fn called(
    rt: &impl Runtime,
    file: &mut File<'_>,
    edits: &[Edit<'_>],
) -> Result<(), MachoBatchError> {
    let batch = sure!(rt; all_owned(rt.alloc(), edits));
    let before = sure!(rt; seen(rt.alloc(), file));
    let answer = call(rt.alloc(), file, edits, &batch);
    if !wants_memory(rt, &answer) {
        return answer;
    }
    same(rt, "refused", &sure!(rt; seen(rt.alloc(), file)), &before);
    let second = call(rt.alloc(), file, edits, &batch);
    granted(rt, answer, second)
}

// Takes a step in a file with thin files at these places, and compares its answer (of a refused single edit the fault
// alone) and all bytes.
fn take(
    rt: &impl Runtime,
    name: &str,
    file: &mut File<'_>,
    starts: &[usize],
    step: &Step<'_>,
    want: &mut [u8],
) {
    let answer = called(rt, file, step.edits);
    match (step.edits, &answer) {
        ([_], Err(refused)) => shows(rt, name, &refused.fault, step.answer),
        _ => shows(rt, name, &answer, step.answer),
    }
    for start in starts {
        for (place, part) in step.changes {
            put(want, start.saturating_add(*place), part);
        }
    }
    agrees(rt, name, file, want);
}

// The bytes that a container hands out: without memory where they were edited.
fn handed_out(
    rt: &impl Runtime,
    kind: Kind,
    file: File<'_>,
    bytes: &[u8],
    is_edited: bool,
) -> Vec<u8> {
    match into_bytes(rt.alloc(), file) {
        Ok(handed) => handed,
        Err(_) => {
            assert!(rt; !is_edited, "no memory for bytes that are there");
            let again = sure!(rt; parse(rt.alloc(), kind, bytes));
            into_bytes(rt.alloc(), again).expect(rt, "memory")
        }
    }
}

// Takes steps in a file with thin files at these places.
pub(crate) fn walk(
    rt: &impl Runtime,
    name: &str,
    kind: Kind,
    bytes: &[u8],
    starts: &[usize],
    steps: &[Step<'_>],
) {
    let mut file = sure!(rt; parse(rt.alloc(), kind, bytes));
    let mut want = sure!(rt; Vec::from_slice(rt.alloc(), bytes));
    let mut is_edited = false;
    for step in steps {
        take(rt, name, &mut file, starts, step, &mut want);
        is_edited = is_edited || (step.answer == "Ok(())" && !step.edits.is_empty());
    }
    let handed = handed_out(rt, kind, file, bytes, is_edited);
    same(rt, name, &handed, &want);
}

// The bytes of a sample.
fn laid(alloc: Global, sample: &Sample<'_>) -> Result<Vec<u8>, AllocError> {
    let mut bytes = vec![in alloc; 0; sample.length]?;
    for (place, part) in sample.parts {
        put(&mut bytes, *place, part);
    }
    Ok(bytes)
}

// Where the two slices of a fat file begin that holds a thin file twice.
const FIRST: u32 = 64;

const SECOND: u32 = 400;

// Takes steps in a thin file, and in a fat file that holds it twice.
fn walks(rt: &impl Runtime, name: &str, sample: &Sample<'_>, steps: &[Step<'_>]) {
    let thin = sure!(rt; laid(rt.alloc(), sample));
    walk(rt, name, Kind::Single, &thin, &[0], steps);
    walk(rt, name, Kind::Any, &thin, &[0], steps);
    let slices = [(FIRST, thin.as_slice()), (SECOND, thin.as_slice())];
    let starts = [FIRST as usize, SECOND as usize];
    let fat = sure!(rt; joined(rt.alloc(), &slices));
    walk(rt, name, Kind::Fat, &fat, &starts, steps);
    walk(rt, name, Kind::Any, &fat, &starts, steps);
}
