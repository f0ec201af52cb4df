//! Fat files: their slices are edited as one.

use crate::containers::{Edit, Kind, Step, in_batch, walk};
use crate::fat_table::lay_record;
use crate::support::{PLAIN, WITH_RPATH, lay, put, same};
use arwen_macho::macho::{
    ByteOrder2, FatArch, FatMachoContainer, MachoBatchError, MachoContainer, MachoEdit, MachoError,
    lay_fronts,
};
use std::alloc::{AllocError, Global};
use std::fmt::Write;

// A narrow file in big-endian order with no commands, and with room for one of 16 bytes.
const NARROW: &[u8; 44] =
    b"\xfe\xed\xfa\xce\0\0\0\x07\0\0\0\x03\0\0\0\x06\0\0\0\0\0\0\0\0\0\0\0\x85\0\0\0\0\0\0\0\0\0\0\0\0\0\0\0\0";

// What a byte between slices is.
const PAD: u8 = 0x55;

// A fat file of slices at these offsets, each behind the one before it, and a byte behind the last.
pub(crate) fn joined(alloc: Global, slices: &[(u32, &[u8])]) -> Result<Vec<u8>, AllocError> {
    let end = match slices.last() {
        Some((offset, bytes)) => bytes.len().saturating_add(*offset as usize),
        None => 8,
    };
    let mut file = vec![in alloc; PAD; end.saturating_add(1)]?;
    let header = [0xcafe_babe, u32::try_from(slices.len()).unwrap_or(0)];
    lay(&mut file, 0, &header, ByteOrder2::Big);
    for i in 0..slices.len() {
        let (offset, bytes) = slices[i];
        let arch = FatArch {
            cputype: 0x0100_0007,
            cpusubtype: 3,
            offset,
            size: u32::try_from(bytes.len()).unwrap_or(0),
            align: 12,
        };
        lay_record(&mut file, i, &arch);
        put(&mut file, offset as usize, bytes);
    }
    Ok(file)
}

// Slices of three forms.
const THREE: [(u32, &[u8]); 3] = [(80, PLAIN), (216, WITH_RPATH), (400, NARROW)];

// What a run path of no text adds to each of them.
const EMPTY_PATHS: &[(usize, &[u8])] = &[
    (96, b"\x03\0\0\0\x50"),
    (176, b"\x1c\0\0\x80\x10\0\0\0\x0c\0\0\0\0\0\0\0"),
    (232, b"\x04\0\0\0\x60"),
    (328, b"\x1c\0\0\x80\x10\0\0\0\x0c\0\0\0\0\0\0\0"),
    (416, b"\0\0\0\x01\0\0\0\x10"),
    (428, b"\x80\0\0\x1c\0\0\0\x10\0\0\0\x0c\0\0\0\0"),
];

const EDIT_THREE: [Step<'static>; 2] = [
    Step {
        edits: &[Edit::Add("")],
        answer: "Ok(())",
        changes: EMPTY_PATHS,
    },
    Step {
        edits: &[Edit::Remove("")],
        answer: "Ok(())",
        changes: &[
            (96, b"\x02\0\0\0\x40"),
            (176, &[0; 16]),
            (232, b"\x03\0\0\0\x50"),
            (328, &[0; 16]),
            (416, &[0; 8]),
            (428, &[0; 16]),
        ],
    },
];

const EDIT_NONE: [Step<'static>; 2] = [
    Step {
        edits: &[Edit::Add("/a")],
        answer: "Ok(())",
        changes: &[],
    },
    Step {
        edits: &[Edit::Remove("/b")],
        answer: "Ok(())",
        changes: &[],
    },
];

const NO_ROOM_IN_ONE: [Step<'static>; 1] = [Step {
    edits: &[Edit::Add("/a/b/c")],
    answer: "NoRoom { needed: 48, available: 44 }",
    changes: &[],
}];

// A slice with room on either side of one without it.
const ROOM_BEHIND: [(u32, &[u8]); 2] = [(64, NARROW), (128, PLAIN)];

const ROOM_BEFORE: [(u32, &[u8]); 2] = [(64, PLAIN), (200, NARROW)];

const MISSING_IN_ONE: [Step<'static>; 3] = [
    Step {
        edits: &[Edit::Remove("/a")],
        answer: "RpathMissing(\"/a\")",
        changes: &[],
    },
    Step {
        edits: &[Edit::Add("/b"), Edit::Remove("/a")],
        answer: "Err(MachoBatchError { index: 1, fault: RpathMissing(\"/a\") })",
        changes: &[],
    },
    Step {
        edits: &[Edit::Add("/b"), Edit::Remove("/b")],
        answer: "Ok(())",
        changes: &[],
    },
];

// A slice with a run path on either side of one without it.
const PATH_BEFORE: [(u32, &[u8]); 2] = [(64, WITH_RPATH), (192, PLAIN)];

const PATH_BEHIND: [(u32, &[u8]); 2] = [(64, PLAIN), (200, WITH_RPATH)];

// A name, slices, and steps in the fat file of them. Places are those in the whole file.
type Row = (
    &'static str,
    &'static [(u32, &'static [u8])],
    &'static [Step<'static>],
);

const ROWS: &[Row] = &[
    ("all slices", &THREE, &EDIT_THREE),
    ("no slices", &[], &EDIT_NONE),
    ("room behind", &ROOM_BEHIND, &NO_ROOM_IN_ONE),
    ("room before", &ROOM_BEFORE, &NO_ROOM_IN_ONE),
    ("path before", &PATH_BEFORE, &MISSING_IN_ONE),
    ("path behind", &PATH_BEHIND, &MISSING_IN_ONE),
];

#[test]
fn edits_slices_as_one(rt: HostRuntime) {
    for (name, slices, steps) in ROWS {
        let file = sure!(&rt; joined(rt.alloc(), slices));
        walk(&rt, name, Kind::Fat, &file, &[0], steps);
        walk(&rt, name, Kind::Any, &file, &[0], steps);
    }
}

// Where the slices of a fat file are and how long, as its records tell, a line each.
fn records(alloc: Global, bytes: &[u8]) -> Result<String, MachoError> {
    let file = FatMachoContainer::parse(alloc, bytes)?;
    let mut lines = String::new(alloc);
    for slice in file.archs() {
        write!(lines, "{} {}\n", slice.arch().offset, slice.arch().size)?;
    }
    Ok(lines)
}

// Where the fronts stand that a run path of no text takes, and how long they are, a line each.
fn fronts(alloc: Global, bytes: &[u8]) -> Result<String, MachoBatchError> {
    let file = FatMachoContainer::parse(alloc, bytes).map_err(in_batch)?;
    let edits = [MachoEdit::AddRpath(String::new(alloc))];
    let mut lines = String::new(alloc);
    for front in &file.fronts(alloc, &edits)? {
        write!(lines, "{} {}\n", front.offset, front.bytes.len())?;
    }
    Ok(lines)
}

#[test]
fn shows_records_and_fronts(rt: HostRuntime) {
    let file = sure!(&rt; joined(rt.alloc(), &THREE));
    let places = "80 128\n216 128\n400 44\n";
    tells!(&rt; "records"; records(rt.alloc(), &file); places);
    let fronts_alone = "80 112\n216 128\n400 44\n";
    tells!(&rt; "fronts"; fronts(rt.alloc(), &file); fronts_alone);
}

// A file's bytes with the fronts over them that a run path of no text takes.
fn with_fronts(alloc: Global, bytes: &[u8]) -> Result<Vec<u8>, MachoBatchError> {
    let file = MachoContainer::parse(alloc, bytes).map_err(in_batch)?;
    let mut copy = Vec::from_slice(alloc, file.bytes())?;
    let edits = [MachoEdit::AddRpath(String::new(alloc))];
    lay_fronts(&mut copy, file.fronts(alloc, &edits)?);
    Ok(copy)
}

#[test]
fn lays_fronts(rt: HostRuntime) {
    let mut want = sure!(&rt; joined(rt.alloc(), &THREE));
    let found = sure!(&rt; with_fronts(rt.alloc(), &want));
    for (place, part) in EMPTY_PATHS {
        put(&mut want, *place, part);
    }
    same(&rt, "bytes", &found, &want);
    let found = sure!(&rt; with_fronts(rt.alloc(), NARROW));
    let want = b"\xfe\xed\xfa\xce\0\0\0\x07\0\0\0\x03\0\0\0\x06\0\0\0\x01\0\0\0\x10\0\0\0\x85\
\x80\0\0\x1c\0\0\0\x10\0\0\0\x0c\0\0\0\0";
    same(&rt, "bytes", &found.as_slice(), &want.as_slice());
}

// Whether a file of these slices is accepted.
fn checked(alloc: Global, slices: &[(u32, &[u8])]) -> Result<String, MachoError> {
    let file = joined(alloc, slices)?;
    FatMachoContainer::parse(alloc, &file)?;
    Ok(String::from_str(alloc, "accepted")?)
}

const ARCHIVE: &[u8] = b"!<arch>\nmembers";

// Two slices, the second at the first one's end, and what comes of them.
const CHECKED_SLICES: &[(&[(u32, &[u8])], &str)] = &[
    (&[(64, PLAIN), (192, ARCHIVE)], "UnixArchive"),
    (&[(64, ARCHIVE), (79, b"")], "UnixArchive"),
    (&[(64, b"!<arch>!"), (72, ARCHIVE)], "Parsing(BadMagic)"),
    (&[(64, PLAIN), (192, b"")], "Parsing(Truncated)"),
    (
        &[(64, b"\xca\xfe\xba\xbe\0\0\0\0"), (72, PLAIN)],
        "Parsing(BadMagic)",
    ),
];

#[test]
fn checks_slices_in_order(rt: HostRuntime) {
    for (slices, want) in CHECKED_SLICES {
        tells!(&rt; want; checked(rt.alloc(), slices); want);
    }
}
