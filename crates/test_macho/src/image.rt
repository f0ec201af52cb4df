//! The reader: headers, commands, texts, where content begins, and which files are refused.

use crate::support::{Runtime, debug_text, lay, prints, put, same};
use arwen_macho::macho::ByteOrder2;
use macho_image::command::{LC_ID_DYLIB, LC_RPATH, LC_SEGMENT, LC_SEGMENT_64};
use macho_image::format::{MH_MAGIC, MH_MAGIC_64};
use macho_image::{MachFault, MachO};
use std::alloc::{AllocError, Global};

// `LC_UUID`, a kind that is kept as it is.
const LC_UUID: u32 = 0x1b;

// A library in four forms: its name, a run path, a library that it loads, and a command of another kind, and zeros
// behind them.
const NARROW_LITTLE: &[u8; 200] =
    b"\xce\xfa\xed\xfe\x07\0\0\0\x03\0\0\0\x06\0\0\0\x04\0\0\0\x68\0\0\0\x85\0\0\0\
\x0d\0\0\0\x20\0\0\0\x18\0\0\0\x01\0\0\0\x03\x02\x01\0\0\0\x01\0a.dylib\0\
\x1c\0\0\x80\x10\0\0\0\x0c\0\0\0/x\0?\
\x18\0\0\x80\x20\0\0\0\x18\0\0\0\x02\0\0\0\0\0\x02\0\0\0\x01\0bb.dylib\
\x1b\0\0\0\x18\0\0\0\x01\0\0\0\x02\0\0\0\x03\0\0\0\x04\0\0\0\
\0\0\0\0\0\0\0\0\0\0\0\0\0\0\0\0\0\0\0\0\0\0\0\0\0\0\0\0\0\0\0\0\0\0\0\0\0\0\0\0\0\0\0\0\0\0\0\0\
\0\0\0\0\0\0\0\0\0\0\0\0\0\0\0\0\0\0\0\0";

const NARROW_BIG: &[u8; 200] =
    b"\xfe\xed\xfa\xce\0\0\0\x07\0\0\0\x03\0\0\0\x06\0\0\0\x04\0\0\0\x68\0\0\0\x85\
\0\0\0\x0d\0\0\0\x20\0\0\0\x18\0\0\0\x01\0\x01\x02\x03\0\x01\0\0a.dylib\0\
\x80\0\0\x1c\0\0\0\x10\0\0\0\x0c/x\0?\
\x80\0\0\x18\0\0\0\x20\0\0\0\x18\0\0\0\x02\0\x02\0\0\0\x01\0\0bb.dylib\
\0\0\0\x1b\0\0\0\x18\0\0\0\x01\0\0\0\x02\0\0\0\x03\0\0\0\x04\
\0\0\0\0\0\0\0\0\0\0\0\0\0\0\0\0\0\0\0\0\0\0\0\0\0\0\0\0\0\0\0\0\0\0\0\0\0\0\0\0\0\0\0\0\0\0\0\0\
\0\0\0\0\0\0\0\0\0\0\0\0\0\0\0\0\0\0\0\0";

const WIDE_LITTLE: &[u8; 200] =
    b"\xcf\xfa\xed\xfe\x07\0\0\0\x03\0\0\0\x06\0\0\0\x04\0\0\0\x68\0\0\0\x85\0\0\0\x09\0\0\0\
\x0d\0\0\0\x20\0\0\0\x18\0\0\0\x01\0\0\0\x03\x02\x01\0\0\0\x01\0a.dylib\0\
\x1c\0\0\x80\x10\0\0\0\x0c\0\0\0/x\0?\
\x18\0\0\x80\x20\0\0\0\x18\0\0\0\x02\0\0\0\0\0\x02\0\0\0\x01\0bb.dylib\
\x1b\0\0\0\x18\0\0\0\x01\0\0\0\x02\0\0\0\x03\0\0\0\x04\0\0\0\
\0\0\0\0\0\0\0\0\0\0\0\0\0\0\0\0\0\0\0\0\0\0\0\0\0\0\0\0\0\0\0\0\0\0\0\0\0\0\0\0\0\0\0\0\0\0\0\0\
\0\0\0\0\0\0\0\0\0\0\0\0\0\0\0\0";

const WIDE_BIG: &[u8; 200] =
    b"\xfe\xed\xfa\xcf\0\0\0\x07\0\0\0\x03\0\0\0\x06\0\0\0\x04\0\0\0\x68\0\0\0\x85\0\0\0\x09\
\0\0\0\x0d\0\0\0\x20\0\0\0\x18\0\0\0\x01\0\x01\x02\x03\0\x01\0\0a.dylib\0\
\x80\0\0\x1c\0\0\0\x10\0\0\0\x0c/x\0?\
\x80\0\0\x18\0\0\0\x20\0\0\0\x18\0\0\0\x02\0\x02\0\0\0\x01\0\0bb.dylib\
\0\0\0\x1b\0\0\0\x18\0\0\0\x01\0\0\0\x02\0\0\0\x03\0\0\0\x04\
\0\0\0\0\0\0\0\0\0\0\0\0\0\0\0\0\0\0\0\0\0\0\0\0\0\0\0\0\0\0\0\0\0\0\0\0\0\0\0\0\0\0\0\0\0\0\0\0\
\0\0\0\0\0\0\0\0\0\0\0\0\0\0\0\0";

// A file whose one command is a run path with a text of 14 bytes.
const WITH_PATH: &[u8; 64] =
    b"\xcf\xfa\xed\xfe\x07\0\0\0\x03\0\0\0\x06\0\0\0\x01\0\0\0\x20\0\0\0\x85\0\0\0\x09\0\0\0\
\x1c\0\0\x80\x20\0\0\0\x0c\0\0\0/usr/local/lib\0\0\0\0\0\0";

// A run path at its command's end is the empty text, whatever stands behind the command.
const WITH_EMPTY_PATH: &[u8; 64] =
    b"\xcf\xfa\xed\xfe\x07\0\0\0\x03\0\0\0\x06\0\0\0\x01\0\0\0\x10\0\0\0\x85\0\0\0\x09\0\0\0\
\x1c\0\0\x80\x10\0\0\0\x10\0\0\0/usr/local/lib\0\0\0\0\0\0";

// What is looked at in a file.
#[derive(Clone, Copy)]
pub(crate) enum What {
    // That the file is accepted.
    Nothing,
    // The file's header.
    Header,
    // The file's form, its length, and where its content begins.
    Measures,
    // Where its content begins.
    Content,
    // The file's load commands.
    Commands,
    // The file's header, its load commands, and where its content begins.
    Lists,
    // The file's own name.
    Name,
    // The file's run paths.
    Paths,
    // The names of the libraries that it loads.
    Libraries,
    // The bytes of its commands.
    Area,
}

// What a file shows.
pub(crate) fn shown(alloc: Global, file: &MachO<'_>, what: What) -> Result<String, AllocError> {
    match what {
        What::Nothing => String::from_str(alloc, "accepted"),
        What::Header => debug_text(alloc, file.header()),
        What::Measures => debug_text(
            alloc,
            &(file.ctx(), file.bytes().len(), file.first_content()),
        ),
        What::Content => debug_text(alloc, &file.first_content()),
        What::Commands => debug_text(alloc, &file.load_commands()),
        What::Lists => debug_text(
            alloc,
            &(file.header(), file.load_commands(), file.first_content()),
        ),
        What::Name => debug_text(alloc, &file.id()),
        What::Paths => debug_text(alloc, &file.rpaths(alloc)?),
        What::Libraries => debug_text(alloc, &file.libs(alloc)?),
        What::Area => debug_text(alloc, &file.commands(alloc)?),
    }
}

// What a file shows that owns its bytes, or one whose bytes are lent.
fn shown_in(alloc: Global, bytes: &[u8], owns: bool, what: What) -> Result<String, MachFault> {
    let file = if owns {
        MachO::parse_owned(alloc, Vec::from_slice(alloc, bytes)?)?
    } else {
        MachO::parse(alloc, bytes)?
    };
    Ok(shown(alloc, &file, what)?)
}

// Compares what a file shows, or why it is refused.
fn expect_shown(rt: &impl Runtime, name: &str, bytes: &[u8], what: What, want: &str) {
    tells!(rt; name; shown_in(rt.alloc(), bytes, false, what); want);
    tells!(rt; name; shown_in(rt.alloc(), bytes, true, what); want);
}

const NARROW_HEADER: &str = "Header { magic: 4277009102, cputype: 7, cpusubtype: 3, filetype: 6, \
ncmds: 4, sizeofcmds: 104, flags: 133, reserved: 0 }";

const WIDE_HEADER: &str = "Header { magic: 4277009103, cputype: 7, cpusubtype: 3, filetype: 6, \
ncmds: 4, sizeofcmds: 104, flags: 133, reserved: 9 }";

const NARROW_COMMANDS: &str = "[\
LoadCommand { offset: 28, command: IdDylib(DylibCommand { cmd: 13, cmdsize: 32, dylib: Dylib { \
name: 24, timestamp: 1, current_version: 66051, compatibility_version: 65536 } }) }, \
LoadCommand { offset: 60, command: Rpath(RpathCommand { cmd: 2147483676, cmdsize: 16, path: 12 }) }, \
LoadCommand { offset: 76, command: LoadWeakDylib(DylibCommand { cmd: 2147483672, cmdsize: 32, \
dylib: Dylib { name: 24, timestamp: 2, current_version: 131072, compatibility_version: 65536 } }) }, \
LoadCommand { offset: 108, command: Other(LoadCommandHeader { cmd: 27, cmdsize: 24 }) }]";

const WIDE_COMMANDS: &str = "[\
LoadCommand { offset: 32, command: IdDylib(DylibCommand { cmd: 13, cmdsize: 32, dylib: Dylib { \
name: 24, timestamp: 1, current_version: 66051, compatibility_version: 65536 } }) }, \
LoadCommand { offset: 64, command: Rpath(RpathCommand { cmd: 2147483676, cmdsize: 16, path: 12 }) }, \
LoadCommand { offset: 80, command: LoadWeakDylib(DylibCommand { cmd: 2147483672, cmdsize: 32, \
dylib: Dylib { name: 24, timestamp: 2, current_version: 131072, compatibility_version: 65536 } }) }, \
LoadCommand { offset: 112, command: Other(LoadCommandHeader { cmd: 27, cmdsize: 24 }) }]";

// `a.dylib`, `/x` and `bb.dylib`.
const NAME: &str = "Some([97, 46, 100, 121, 108, 105, 98])";

const PATHS: &str = "[[47, 120]]";

const LIBRARIES: &str = "[[98, 98, 46, 100, 121, 108, 105, 98]]";

const LITTLE_AREA: &str = "[\
ByteString { source: [13, 0, 0, 0, 32, 0, 0, 0, 24, 0, 0, 0, 1, 0, 0, 0, 3, 2, 1, 0, 0, 0, 1, 0, \
97, 46, 100, 121, 108, 105, 98, 0], copy: None }, \
ByteString { source: [28, 0, 0, 128, 16, 0, 0, 0, 12, 0, 0, 0, 47, 120, 0, 63], copy: None }, \
ByteString { source: [24, 0, 0, 128, 32, 0, 0, 0, 24, 0, 0, 0, 2, 0, 0, 0, 0, 0, 2, 0, 0, 0, 1, 0, \
98, 98, 46, 100, 121, 108, 105, 98], copy: None }, \
ByteString { source: [27, 0, 0, 0, 24, 0, 0, 0, 1, 0, 0, 0, 2, 0, 0, 0, 3, 0, 0, 0, 4, 0, 0, 0], \
copy: None }]";

const BIG_AREA: &str = "[\
ByteString { source: [0, 0, 0, 13, 0, 0, 0, 32, 0, 0, 0, 24, 0, 0, 0, 1, 0, 1, 2, 3, 0, 1, 0, 0, \
97, 46, 100, 121, 108, 105, 98, 0], copy: None }, \
ByteString { source: [128, 0, 0, 28, 0, 0, 0, 16, 0, 0, 0, 12, 47, 120, 0, 63], copy: None }, \
ByteString { source: [128, 0, 0, 24, 0, 0, 0, 32, 0, 0, 0, 24, 0, 0, 0, 2, 0, 2, 0, 0, 0, 1, 0, 0, \
98, 98, 46, 100, 121, 108, 105, 98], copy: None }, \
ByteString { source: [0, 0, 0, 27, 0, 0, 0, 24, 0, 0, 0, 1, 0, 0, 0, 2, 0, 0, 0, 3, 0, 0, 0, 4], \
copy: None }]";

// A file, what is looked at in it, and what it shows or why it is refused.
type Shown = (&'static str, &'static [u8], What, &'static str);

const SHOWN: &[Shown] = &[
    (
        "narrow, low byte first",
        NARROW_LITTLE,
        What::Header,
        NARROW_HEADER,
    ),
    (
        "narrow, low byte first",
        NARROW_LITTLE,
        What::Measures,
        "(Ctx { container: W32, le: Little }, 200, 200)",
    ),
    (
        "narrow, low byte first",
        NARROW_LITTLE,
        What::Commands,
        NARROW_COMMANDS,
    ),
    ("narrow, low byte first", NARROW_LITTLE, What::Name, NAME),
    ("narrow, low byte first", NARROW_LITTLE, What::Paths, PATHS),
    (
        "narrow, low byte first",
        NARROW_LITTLE,
        What::Libraries,
        LIBRARIES,
    ),
    (
        "narrow, low byte first",
        NARROW_LITTLE,
        What::Area,
        LITTLE_AREA,
    ),
    (
        "narrow, high byte first",
        NARROW_BIG,
        What::Header,
        NARROW_HEADER,
    ),
    (
        "narrow, high byte first",
        NARROW_BIG,
        What::Measures,
        "(Ctx { container: W32, le: Big }, 200, 200)",
    ),
    (
        "narrow, high byte first",
        NARROW_BIG,
        What::Commands,
        NARROW_COMMANDS,
    ),
    ("narrow, high byte first", NARROW_BIG, What::Name, NAME),
    ("narrow, high byte first", NARROW_BIG, What::Paths, PATHS),
    (
        "narrow, high byte first",
        NARROW_BIG,
        What::Libraries,
        LIBRARIES,
    ),
    ("narrow, high byte first", NARROW_BIG, What::Area, BIG_AREA),
    (
        "wide, low byte first",
        WIDE_LITTLE,
        What::Header,
        WIDE_HEADER,
    ),
    (
        "wide, low byte first",
        WIDE_LITTLE,
        What::Measures,
        "(Ctx { container: W64, le: Little }, 200, 200)",
    ),
    (
        "wide, low byte first",
        WIDE_LITTLE,
        What::Commands,
        WIDE_COMMANDS,
    ),
    ("wide, low byte first", WIDE_LITTLE, What::Name, NAME),
    ("wide, low byte first", WIDE_LITTLE, What::Paths, PATHS),
    (
        "wide, low byte first",
        WIDE_LITTLE,
        What::Libraries,
        LIBRARIES,
    ),
    ("wide, low byte first", WIDE_LITTLE, What::Area, LITTLE_AREA),
    ("wide, high byte first", WIDE_BIG, What::Header, WIDE_HEADER),
    (
        "wide, high byte first",
        WIDE_BIG,
        What::Measures,
        "(Ctx { container: W64, le: Big }, 200, 200)",
    ),
    (
        "wide, high byte first",
        WIDE_BIG,
        What::Commands,
        WIDE_COMMANDS,
    ),
    ("wide, high byte first", WIDE_BIG, What::Name, NAME),
    ("wide, high byte first", WIDE_BIG, What::Paths, PATHS),
    (
        "wide, high byte first",
        WIDE_BIG,
        What::Libraries,
        LIBRARIES,
    ),
    ("wide, high byte first", WIDE_BIG, What::Area, BIG_AREA),
    // `/usr/local/lib`, and no text.
    ("a long run path", WITH_PATH, What::Name, "None"),
    (
        "a long run path",
        WITH_PATH,
        What::Paths,
        "[[47, 117, 115, 114, 47, 108, 111, 99, 97, 108, 47, 108, 105, 98]]",
    ),
    ("a long run path", WITH_PATH, What::Libraries, "[]"),
    ("an empty run path", WITH_EMPTY_PATH, What::Name, "None"),
    ("an empty run path", WITH_EMPTY_PATH, What::Paths, "[[]]"),
    ("an empty run path", WITH_EMPTY_PATH, What::Libraries, "[]"),
    // First bytes.
    ("no bytes", b"", What::Nothing, "Truncated"),
    ("ELF", b"\x7fELF", What::Nothing, "BadMagic"),
    ("a fat file", b"\xca\xfe\xba\xbe", What::Nothing, "BadMagic"),
    ("no header", b"\xcf\xfa\xed", What::Nothing, "Truncated"),
    (
        "a part of it",
        b"\xcf\xfa\xed\xfe\x07\0\0\0\x03\0\0\0\x06\0\0\0\0\0\0\0\0\0\0\0\x85\0\0\0\x09\0\0",
        What::Nothing,
        "Truncated",
    ),
    (
        "a part of a narrow one",
        b"\xfe\xed\xfa\xce\0\0\0\x07\0\0\0\x03\0\0\0\x06\0\0\0\0\0\0\0\0\0\0\0",
        What::Nothing,
        "Truncated",
    ),
    (
        "commands past the end",
        b"\xcf\xfa\xed\xfe\x07\0\0\0\x03\0\0\0\x06\0\0\0\0\0\0\0\x01\0\0\0\x85\0\0\0\x09\0\0\0",
        What::Nothing,
        "Truncated",
    ),
    (
        "a header",
        b"\xcf\xfa\xed\xfe\x07\0\0\0\x03\0\0\0\x06\0\0\0\0\0\0\0\0\0\0\0\x85\0\0\0\x09\0\0\0",
        What::Nothing,
        "accepted",
    ),
    (
        "a narrow header",
        b"\xfe\xed\xfa\xce\0\0\0\x07\0\0\0\x03\0\0\0\x06\0\0\0\0\0\0\0\0\0\0\0\x85",
        What::Nothing,
        "accepted",
    ),
];

#[test]
fn shows_and_refuses_files(rt: HostRuntime) {
    for (name, bytes, what, want) in SHOWN {
        expect_shown(&rt, name, bytes, *what, want);
    }
}

// The bytes that a file hands out which was not edited: lent ones, and its own.
fn handed_out(alloc: Global, bytes: &[u8]) -> Result<Vec<u8>, MachFault> {
    let lent = MachO::parse(alloc, bytes)?.into_bytes(alloc)?;
    Ok(MachO::parse_owned(alloc, lent)?.into_bytes(alloc)?)
}

const HANDED_OUT: &[&[u8]] = &[NARROW_LITTLE, NARROW_BIG, WIDE_LITTLE, WIDE_BIG];

#[test]
fn hands_out_bytes(rt: HostRuntime) {
    for bytes in HANDED_OUT {
        let found = sure!(&rt; handed_out(rt.alloc(), bytes));
        same(&rt, "handed out", &found.as_slice(), bytes);
    }
}

// A file of 640 bytes, low byte first: its magic, its two counts and words at their places, and what is told of it.
type Words = (
    &'static str,
    u32,
    [u32; 2],
    &'static [(usize, &'static [u32])],
    &'static str,
);

const WORDS: &[Words] = &[
    (
        "far past the end",
        MH_MAGIC_64,
        [0, 0xffff_ffe0],
        &[],
        "Truncated",
    ),
    (
        "no room for a command",
        MH_MAGIC_64,
        [1, 7],
        &[(32, &[LC_UUID, 8])],
        "BadCommandSize",
    ),
    (
        "less than a command",
        MH_MAGIC_64,
        [1, 8],
        &[(32, &[LC_UUID, 7])],
        "BadCommandSize",
    ),
    (
        "past the area",
        MH_MAGIC_64,
        [1, 8],
        &[(32, &[LC_UUID, 0xffff_fff8])],
        "BadCommandSize",
    ),
    (
        "a kind's fixed part",
        MH_MAGIC_64,
        [1, 8],
        &[(32, &[LC_RPATH, 8])],
        "BadCommandSize",
    ),
    (
        "one command too few",
        MH_MAGIC_64,
        [2, 8],
        &[(32, &[LC_UUID, 8])],
        "BadCommandSize",
    ),
    (
        "counts",
        MH_MAGIC_64,
        [1, 16],
        &[(32, &[LC_UUID, 8])],
        "CountsDisagree",
    ),
    (
        "all right",
        MH_MAGIC_64,
        [1, 8],
        &[(32, &[LC_UUID, 8])],
        "accepted",
    ),
    (
        "a path past its command",
        MH_MAGIC_64,
        [1, 16],
        &[(32, &[LC_RPATH, 16, 17])],
        "BadNameOffset",
    ),
    (
        "path before size",
        MH_MAGIC_64,
        [2, 24],
        &[(32, &[LC_RPATH, 16, 17, 0, LC_UUID, 7])],
        "BadNameOffset",
    ),
    (
        "a name past its command",
        MH_MAGIC_64,
        [1, 24],
        &[(32, &[LC_ID_DYLIB, 24, 25])],
        "BadNameOffset",
    ),
    (
        "wide, 1 sections",
        MH_MAGIC_64,
        [1, 72],
        &[(32, &[LC_SEGMENT_64, 72]), (96, &[1])],
        "BadCommandSize",
    ),
    (
        "wide, 0xffff_ffff sections",
        MH_MAGIC_64,
        [1, 72],
        &[(32, &[LC_SEGMENT_64, 72]), (96, &[0xffff_ffff])],
        "BadCommandSize",
    ),
    (
        "wide, 0x1000_0000 sections",
        MH_MAGIC_64,
        [1, 72],
        &[(32, &[LC_SEGMENT_64, 72]), (96, &[0x1000_0000])],
        "BadCommandSize",
    ),
    (
        "narrow, 1 sections",
        MH_MAGIC,
        [1, 56],
        &[(28, &[LC_SEGMENT, 56]), (76, &[1])],
        "BadCommandSize",
    ),
    (
        "narrow, 0x4000_0000 sections",
        MH_MAGIC,
        [1, 56],
        &[(28, &[LC_SEGMENT, 56]), (76, &[0x4000_0000])],
        "BadCommandSize",
    ),
];

// A file of 640 bytes with these counts, and words at their places, low byte first.
fn file_of(magic: u32, counts: &[u32; 2], parts: &[(usize, &[u32])]) -> [u8; 640] {
    let mut bytes = [0; 640];
    let header = [magic, 7, 3, 6, counts[0], counts[1], 0x85, 9];
    lay(&mut bytes, 0, &header, ByteOrder2::Little);
    for (place, words) in parts {
        lay(&mut bytes, *place, words, ByteOrder2::Little);
    }
    bytes
}

#[test]
fn refuses_commands(rt: HostRuntime) {
    for (name, magic, counts, parts, want) in WORDS {
        let bytes = file_of(*magic, counts, parts);
        expect_shown(&rt, name, &bytes, What::Nothing, want);
    }
}

// A symbol table and a segment with five sections in four forms: of the sections only one has bytes in the file, at
// 600.
const NARROW_LITTLE_SECTIONS: &[u8; 448] =
    b"\xce\xfa\xed\xfe\x07\0\0\0\x03\0\0\0\x06\0\0\0\x02\0\0\0\xa4\x01\0\0\x85\0\0\0\
\x02\0\0\0\x18\0\0\0\0\0\0\0\0\0\0\0\0\0\0\0\0\0\0\0\
\x01\0\0\0\x8c\x01\0\0\0\0\0\0\0\0\0\0\0\0\0\0\0\0\0\0\0\0\0\0\0\0\0\0\0\0\0\0\0\0\0\0\0\0\0\0\0\
\0\0\0\x05\0\0\0\0\0\0\0\
\0\0\0\0\0\0\0\0\0\0\0\0\0\0\0\0\0\0\0\0\0\0\0\0\0\0\0\0\0\0\0\0\0\0\0\0\x10\0\0\0\x58\x02\0\0\0\
\0\0\0\0\0\0\0\0\0\0\0\0\x04\0\x80\0\0\0\0\0\0\0\0\
\0\0\0\0\0\0\0\0\0\0\0\0\0\0\0\0\0\0\0\0\0\0\0\0\0\0\0\0\0\0\0\0\0\0\0\0\x10\0\0\0\x04\0\0\0\0\0\
\0\0\0\0\0\0\0\0\0\0\x01\0\0\0\0\0\0\0\0\0\0\0\
\0\0\0\0\0\0\0\0\0\0\0\0\0\0\0\0\0\0\0\0\0\0\0\0\0\0\0\0\0\0\0\0\0\0\0\0\x10\0\0\0\x04\0\0\0\0\0\
\0\0\0\0\0\0\0\0\0\0\x0c\0\0\0\0\0\0\0\0\0\0\0\
\0\0\0\0\0\0\0\0\0\0\0\0\0\0\0\0\0\0\0\0\0\0\0\0\0\0\0\0\0\0\0\0\0\0\0\0\x10\0\0\0\x04\0\0\0\0\0\
\0\0\0\0\0\0\0\0\0\0\x12\0\0\x80\0\0\0\0\0\0\0\0\
\0\0\0\0\0\0\0\0\0\0\0\0\0\0\0\0\0\0\0\0\0\0\0\0\0\0\0\0\0\0\0\0\0\0\0\0\0\0\0\0\x04\0\0\0\0\0\0\
\0\0\0\0\0\0\0\0\0\0\0\0\0\0\0\0\0\0\0\0\0";

const NARROW_BIG_SECTIONS: &[u8; 448] =
    b"\xfe\xed\xfa\xce\0\0\0\x07\0\0\0\x03\0\0\0\x06\0\0\0\x02\0\0\x01\xa4\0\0\0\x85\
\0\0\0\x02\0\0\0\x18\0\0\0\0\0\0\0\0\0\0\0\0\0\0\0\0\
\0\0\0\x01\0\0\x01\x8c\0\0\0\0\0\0\0\0\0\0\0\0\0\0\0\0\0\0\0\0\0\0\0\0\0\0\0\0\0\0\0\0\0\0\0\0\0\
\0\0\0\0\0\0\x05\0\0\0\0\
\0\0\0\0\0\0\0\0\0\0\0\0\0\0\0\0\0\0\0\0\0\0\0\0\0\0\0\0\0\0\0\0\0\0\0\0\0\0\0\x10\0\0\x02\x58\0\
\0\0\0\0\0\0\0\0\0\0\0\x80\0\x04\0\0\0\0\0\0\0\0\0\
\0\0\0\0\0\0\0\0\0\0\0\0\0\0\0\0\0\0\0\0\0\0\0\0\0\0\0\0\0\0\0\0\0\0\0\0\0\0\0\x10\0\0\0\x04\0\0\
\0\0\0\0\0\0\0\0\0\0\0\0\0\x01\0\0\0\0\0\0\0\0\
\0\0\0\0\0\0\0\0\0\0\0\0\0\0\0\0\0\0\0\0\0\0\0\0\0\0\0\0\0\0\0\0\0\0\0\0\0\0\0\x10\0\0\0\x04\0\0\
\0\0\0\0\0\0\0\0\0\0\0\0\0\x0c\0\0\0\0\0\0\0\0\
\0\0\0\0\0\0\0\0\0\0\0\0\0\0\0\0\0\0\0\0\0\0\0\0\0\0\0\0\0\0\0\0\0\0\0\0\0\0\0\x10\0\0\0\x04\0\0\
\0\0\0\0\0\0\0\0\0\0\x80\0\0\x12\0\0\0\0\0\0\0\0\
\0\0\0\0\0\0\0\0\0\0\0\0\0\0\0\0\0\0\0\0\0\0\0\0\0\0\0\0\0\0\0\0\0\0\0\0\0\0\0\0\0\0\0\x04\0\0\0\
\0\0\0\0\0\0\0\0\0\0\0\0\0\0\0\0\0\0\0\0\0";

const WIDE_LITTLE_SECTIONS: &[u8; 528] =
    b"\xcf\xfa\xed\xfe\x07\0\0\0\x03\0\0\0\x06\0\0\0\x02\0\0\0\xf0\x01\0\0\x85\0\0\0\x09\0\0\0\
\x02\0\0\0\x18\0\0\0\0\0\0\0\0\0\0\0\0\0\0\0\0\0\0\0\
\x19\0\0\0\xd8\x01\0\0\0\0\0\0\0\0\0\0\0\0\0\0\0\0\0\0\0\0\0\0\0\0\0\0\0\0\0\0\0\0\0\0\0\0\0\0\0\
\0\0\0\0\0\0\0\0\0\0\0\0\0\0\0\0\0\0\0\x05\0\0\0\0\0\0\0\
\0\0\0\0\0\0\0\0\0\0\0\0\0\0\0\0\0\0\0\0\0\0\0\0\0\0\0\0\0\0\0\0\0\0\0\0\0\0\0\0\x10\0\0\0\0\0\0\
\0\x58\x02\0\0\0\0\0\0\0\0\0\0\0\0\0\0\0\x04\0\x80\0\0\0\0\0\0\0\0\0\0\0\0\
\0\0\0\0\0\0\0\0\0\0\0\0\0\0\0\0\0\0\0\0\0\0\0\0\0\0\0\0\0\0\0\0\0\0\0\0\0\0\0\0\x10\0\0\0\0\0\0\
\0\x04\0\0\0\0\0\0\0\0\0\0\0\0\0\0\0\x01\0\0\0\0\0\0\0\0\0\0\0\0\0\0\0\
\0\0\0\0\0\0\0\0\0\0\0\0\0\0\0\0\0\0\0\0\0\0\0\0\0\0\0\0\0\0\0\0\0\0\0\0\0\0\0\0\x10\0\0\0\0\0\0\
\0\x04\0\0\0\0\0\0\0\0\0\0\0\0\0\0\0\x0c\0\0\0\0\0\0\0\0\0\0\0\0\0\0\0\
\0\0\0\0\0\0\0\0\0\0\0\0\0\0\0\0\0\0\0\0\0\0\0\0\0\0\0\0\0\0\0\0\0\0\0\0\0\0\0\0\x10\0\0\0\0\0\0\
\0\x04\0\0\0\0\0\0\0\0\0\0\0\0\0\0\0\x12\0\0\x80\0\0\0\0\0\0\0\0\0\0\0\0\
\0\0\0\0\0\0\0\0\0\0\0\0\0\0\0\0\0\0\0\0\0\0\0\0\0\0\0\0\0\0\0\0\0\0\0\0\0\0\0\0\0\0\0\0\0\0\0\0\
\x04\0\0\0\0\0\0\0\0\0\0\0\0\0\0\0\0\0\0\0\0\0\0\0\0\0\0\0\0\0\0\0";

const WIDE_BIG_SECTIONS: &[u8; 528] =
    b"\xfe\xed\xfa\xcf\0\0\0\x07\0\0\0\x03\0\0\0\x06\0\0\0\x02\0\0\x01\xf0\0\0\0\x85\0\0\0\x09\
\0\0\0\x02\0\0\0\x18\0\0\0\0\0\0\0\0\0\0\0\0\0\0\0\0\
\0\0\0\x19\0\0\x01\xd8\0\0\0\0\0\0\0\0\0\0\0\0\0\0\0\0\0\0\0\0\0\0\0\0\0\0\0\0\0\0\0\0\0\0\0\0\0\
\0\0\0\0\0\0\0\0\0\0\0\0\0\0\0\0\0\0\0\0\0\0\x05\0\0\0\0\
\0\0\0\0\0\0\0\0\0\0\0\0\0\0\0\0\0\0\0\0\0\0\0\0\0\0\0\0\0\0\0\0\0\0\0\0\0\0\0\0\0\0\0\0\0\0\0\
\x10\0\0\x02\x58\0\0\0\0\0\0\0\0\0\0\0\0\x80\0\x04\0\0\0\0\0\0\0\0\0\0\0\0\0\
\0\0\0\0\0\0\0\0\0\0\0\0\0\0\0\0\0\0\0\0\0\0\0\0\0\0\0\0\0\0\0\0\0\0\0\0\0\0\0\0\0\0\0\0\0\0\0\
\x10\0\0\0\x04\0\0\0\0\0\0\0\0\0\0\0\0\0\0\0\x01\0\0\0\0\0\0\0\0\0\0\0\0\
\0\0\0\0\0\0\0\0\0\0\0\0\0\0\0\0\0\0\0\0\0\0\0\0\0\0\0\0\0\0\0\0\0\0\0\0\0\0\0\0\0\0\0\0\0\0\0\
\x10\0\0\0\x04\0\0\0\0\0\0\0\0\0\0\0\0\0\0\0\x0c\0\0\0\0\0\0\0\0\0\0\0\0\
\0\0\0\0\0\0\0\0\0\0\0\0\0\0\0\0\0\0\0\0\0\0\0\0\0\0\0\0\0\0\0\0\0\0\0\0\0\0\0\0\0\0\0\0\0\0\0\
\x10\0\0\0\x04\0\0\0\0\0\0\0\0\0\0\0\0\x80\0\0\x12\0\0\0\0\0\0\0\0\0\0\0\0\
\0\0\0\0\0\0\0\0\0\0\0\0\0\0\0\0\0\0\0\0\0\0\0\0\0\0\0\0\0\0\0\0\0\0\0\0\0\0\0\0\0\0\0\0\0\0\0\0\
\0\0\0\x04\0\0\0\0\0\0\0\0\0\0\0\0\0\0\0\0\0\0\0\0\0\0\0\0\0\0\0\0";

// The name of a form, those bytes, their order, and where it is told where the segment, the symbols and the strings
// of a file begin and how long each is.
type Form = (&'static str, &'static [u8], ByteOrder2, [usize; 6]);

const FORMS: &[Form] = &[
    (
        "narrow, low byte first",
        NARROW_LITTLE_SECTIONS,
        ByteOrder2::Little,
        [84, 88, 36, 40, 44, 48],
    ),
    (
        "narrow, high byte first",
        NARROW_BIG_SECTIONS,
        ByteOrder2::Big,
        [84, 88, 36, 40, 44, 48],
    ),
    (
        "wide, low byte first",
        WIDE_LITTLE_SECTIONS,
        ByteOrder2::Little,
        [96, 104, 40, 44, 48, 52],
    ),
    (
        "wide, high byte first",
        WIDE_BIG_SECTIONS,
        ByteOrder2::Big,
        [100, 108, 40, 44, 48, 52],
    ),
];

// A file of this form with these numbers there.
fn with_sections(form: &Form, numbers: &[u32; 6]) -> [u8; 640] {
    let mut bytes = [0; 640];
    put(&mut bytes, 0, form.1);
    for i in 0..6 {
        lay(&mut bytes, form.3[i], &[numbers[i]], form.2);
    }
    bytes
}

// The numbers of a segment and of its sections, and where the content of a file begins that has
// them.
const FIRST_CONTENT: &[([u32; 6], &str)] = &[
    ([0, 640, 0, 0, 0, 0], "600"),
    ([590, 8, 0, 0, 0, 0], "590"),
    ([590, 0, 0, 0, 0, 0], "600"),
    ([0, 640, 592, 1, 0, 9], "592"),
    ([0, 640, 592, 0, 594, 9], "594"),
    ([0, 640, 0, 3, 594, 0], "600"),
];

#[test]
fn finds_first_content(rt: HostRuntime) {
    for form in FORMS {
        for (numbers, first) in FIRST_CONTENT {
            let bytes = with_sections(form, numbers);
            expect_shown(&rt, form.0, &bytes, What::Content, first);
        }
    }
}

const FAULTS: &[(MachFault, &str)] = &[
    (MachFault::BadMagic, "BadMagic"),
    (MachFault::Truncated, "Truncated"),
    (MachFault::BadCommandSize, "BadCommandSize"),
    (MachFault::BadNameOffset, "BadNameOffset"),
    (MachFault::CountsDisagree, "CountsDisagree"),
    (MachFault::SliceOutside, "SliceOutside"),
    (MachFault::SlicesOverlap, "SlicesOverlap"),
    (MachFault::TooLong, "TooLong"),
    (MachFault::Memory, "Memory"),
];

#[test]
fn prints_faults(rt: HostRuntime) {
    for (fault, name) in FAULTS {
        prints(&rt, fault, name);
    }
}
