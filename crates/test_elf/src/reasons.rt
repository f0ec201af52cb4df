//! Why a file is refused, and why its layout is.

use crate::small::{LIST, TABLE, file};
use crate::support::same;
use elf_apply::steps::edit;
use elf_edits::ElfEdit;
use elf_image::Builder;
use elf_image_reasons::explain_refusal;
use elf_layout_reasons::{advice_text, stuck_pair};
use std::alloc::{AllocError, Global};

// What is told of bytes.
fn text(alloc: Global, bytes: &[u8]) -> Result<String, AllocError> {
    match explain_refusal(alloc, bytes)? {
        Some(reason) => format!(in alloc; "{reason}"),
        None => format!(in alloc; "accepted"),
    }
}

// What is told of the file with one byte changed.
fn told(alloc: Global, position: usize, byte: u8) -> Result<String, AllocError> {
    let mut bytes = file(alloc)?;
    if position < bytes.len() {
        bytes[position] = byte;
    }
    text(alloc, &bytes)
}

// A position, the byte that is put there, and what is told then.
static TOLD: [(usize, u8, &str); 12] = [
    (0, 0x7f, "accepted"),
    (0, 0x7e, "magic"),
    (16, 1, "file kind: e_type is 1"),
    // A segment past the end, a section elsewhere, two segments at one place.
    (
        97,
        0x10,
        "ranges in the file: program header 0 has 0x10e8 bytes from 0x0 on, the file ends at 0x1f0",
    ),
    (
        320,
        0xc0,
        "sections loaded: no loaded segment shows section 1 of offset 0xb0 at its address 0xc0",
    ),
    (
        120,
        1,
        "segments apart: program header 0 and program header 1 share an address",
    ),
    // Links to no string table and to nothing, a name that is not there.
    (
        TABLE + 68,
        6,
        "one of each and linked: section 1 links to section 0, which is no string table",
    ),
    (
        TABLE + 168,
        9,
        "one of each and linked: section 2 links to section 9, which isn't there",
    ),
    (
        TABLE + 64,
        0x40,
        "texts: the name of section 1 is at 0x40, no text begins there and ends",
    ),
    // A user of the dynamic strings, a tag without its table, a text that doesn't end.
    (
        TABLE + 232,
        1,
        "versions: section 3 links to section 1, which has the dynamic strings",
    ),
    (
        LIST + 8,
        0xb1,
        "dynamic tables: DT_STRTAB is 0xb1, no string table that the dynamic section links to begins there",
    ),
    (
        LIST + 24,
        0x40,
        "texts: DT_NEEDED is 0x40, no text of the dynamic strings begins there and ends",
    ),
];

#[test]
fn tells_why_a_file_is_refused(rt: HostRuntime) {
    for (position, byte, want) in &TOLD {
        let text = sure!(&rt; told(rt.alloc(), *position, *byte));
        same(
            &rt,
            "told",
            &(*position, text.as_str()),
            &(*position, *want),
        );
    }
    let text = sure!(&rt; text(rt.alloc(), &[]));
    same(
        &rt,
        "no bytes",
        &text.as_str(),
        &"identification: the file is empty",
    );
}

// What is told of the layout of an image.
fn stuck_text(alloc: Global, image: &Builder<'_>) -> Result<String, AllocError> {
    let Some(pair) = stuck_pair(alloc, image)? else {
        return format!(in alloc; "apart");
    };
    match advice_text(alloc, image, &pair)? {
        Some(text) => Ok(text),
        None => format!(in alloc; "nothing"),
    }
}

// What is told of that of the file after an edit.
fn stuck(alloc: Global, change: &ElfEdit) -> Result<String, AllocError> {
    let bytes = file(alloc)?;
    let Ok(mut image) = Builder::read(alloc, &bytes) else {
        return Err(AllocError);
    };
    match edit(&mut image, alloc, change) {
        Ok(()) => stuck_text(alloc, &image),
        Err(_) => Err(AllocError),
    }
}

// Edits, and what is told of the layout of the file after each: of a list that fits and one that grows, and of a table of
// program headers that grows.
const STUCK: [(ElfEdit, &str); 3] = [
    (ElfEdit::RemoveRpath, "apart"),
    (
        ElfEdit::AddDebugTag,
        "section 2 has no spare entry (--move-dynamic lets it move), the edge of a loaded segment stands behind it",
    ),
    (
        ElfEdit::SetExecStack,
        "the program header table has no room for a further entry, section 2 stands behind it",
    ),
];

#[test]
fn tells_why_a_layout_is_stuck(rt: HostRuntime) {
    for (change, want) in &STUCK {
        let text = sure!(&rt; stuck(rt.alloc(), change));
        same(&rt, "told", &text.as_str(), want);
    }
}
