//! Tables of versions: their bytes, which were laid out by hand.
ghost use Rattle.std.specs.Prelude.{◌≡◌, is_some, map};
ghost use Rattle.std.specs.List.{list_all};
ghost use Rattle.elf_image.specs.ImageModel.{definition_model};
ghost use Rattle.elf_tables.specs.Strings.{place_of};
ghost use Rattle.elf_tables.specs.VersionRecords.{has_definition_texts};

use crate::support::{fitting, same, table_of};
use elf_format::{ByteOrder2, ByteString};
use elf_image::{VersionDef, VersionId};
use elf_tables::{Finished, build_verdef, build_versym};
use std::alloc::{AllocError, Global};

// Versions of symbols, the byte order, and the bytes. There are none where a number is too large.
static SYMBOLS: [(&[VersionId], ByteOrder2, Option<&[u8]>); 5] = [
    (&[], ByteOrder2::Little, Some(b"")),
    (
        &[VersionId {
            index: 0x7fff,
            hidden: false,
        }],
        ByteOrder2::Little,
        Some(b"\xff\x7f"),
    ),
    (
        &[VersionId {
            index: 0x7fff,
            hidden: true,
        }],
        ByteOrder2::Big,
        Some(b"\xff\xff"),
    ),
    (
        &[
            VersionId {
                index: 0,
                hidden: false,
            },
            VersionId {
                index: 2,
                hidden: true,
            },
        ],
        ByteOrder2::Big,
        Some(b"\0\0\x80\x02"),
    ),
    (
        &[
            VersionId {
                index: 1,
                hidden: false,
            },
            VersionId {
                index: 0x8000,
                hidden: false,
            },
        ],
        ByteOrder2::Little,
        None,
    ),
];

#[test]
fn versions_of_symbols(rt: HostRuntime) {
    for (i, (ids, order, want)) in SYMBOLS.iter().enumerate() {
        let found = sure!(&rt; fitting(build_versym(rt.alloc(), ids, *order)));
        same(&rt, "bytes", &(i, found.as_deref()), &(i, *want));
    }
}

// Whether the table has these names.
fn has_all(names: &[ByteString<'_>], table: &Finished<'_>) -> bool
    ensures { result ≡ list_all (λ name. is_some (place_of table.now name.bytes)) names.now }
{
    names
        .iter()
        .all(|name| table.offset_of(name.as_slice()).is_some())
}

// Whether the table has the names of each of these versions.
fn has_each(records: &[VersionDef<'_>], table: &Finished<'_>) -> bool
    ensures { result
        ≡ list_all (λ d. list_all (λ name. is_some (place_of table.now name.bytes)) d.names.items)
        records.now }
{
    records.iter().all(|version| has_all(&version.names, table))
}

// Whether the table has the names that are kept of these versions.
fn has_names(records: &[VersionDef<'_>], table: &Finished<'_>) -> bool
    ensures { result ≡ has_definition_texts table.now (map definition_model records.now) }
{
    has_each(records, table)
}

// A version that a file defines: its number, its flags, its names, and how often each of them is there.
type Definition = (u16, u16, &'static [&'static [u8]], u32);

// The names as they are kept.
fn kept_names(
    alloc: Global,
    names: &[&'static [u8]],
    times: u32,
) -> Result<Vec<ByteString<'static>>, AllocError> {
    let mut kept = Vec::new(alloc);
    for name in names {
        for _ in 0..times {
            kept.push(ByteString::borrowed(name))?;
        }
    }
    Ok(kept)
}

// The versions as they are kept.
fn kept(alloc: Global, versions: &[Definition]) -> Result<Vec<VersionDef<'static>>, AllocError> {
    let mut kept = Vec::new(alloc);
    for (index, flags, names, times) in versions {
        kept.push(VersionDef {
            index: *index,
            flags: *flags,
            names: kept_names(alloc, names, *times)?,
        })?;
    }
    Ok(kept)
}

// Defined versions, texts of a table, the byte order, and the bytes. There are none where a number is too large.
struct Row {
    what: &'static str,
    versions: &'static [Definition],
    texts: &'static [&'static [u8]],
    order: ByteOrder2,
    bytes: Option<&'static [u8]>,
}

const OWN: Definition = (1, 1, &[b"libx.so.1"], 1);

const SECOND: Definition = (2, 0, &[b"V_2", b"V_1"], 1);

static DEFINED: [Row; 4] = [
    Row {
        what: "no version",
        versions: &[],
        texts: &[],
        order: ByteOrder2::Little,
        bytes: Some(b""),
    },
    // The name stands at 1.
    Row {
        what: "a name of its own",
        versions: &[OWN],
        texts: &[b"libx.so.1"],
        order: ByteOrder2::Little,
        bytes: Some(
            b"\x01\0\x01\0\x01\0\x01\0\xe1\xf4\xb5\x09\x14\0\0\0\0\0\0\0\
            \x01\0\0\0\0\0\0\0",
        ),
    },
    // The names stand at 9, 1 and 5.
    Row {
        what: "two versions",
        versions: &[OWN, SECOND],
        texts: &[b"libx.so.1", b"V_1", b"V_2"],
        order: ByteOrder2::Big,
        bytes: Some(
            b"\0\x01\0\x01\0\x01\0\x01\x09\xb5\xf4\xe1\0\0\0\x14\0\0\0\x1c\
            \0\0\0\x09\0\0\0\0\
            \0\x01\0\0\0\x02\0\x02\0\0\x5c\x22\0\0\0\x14\0\0\0\0\
            \0\0\0\x01\0\0\0\x08\0\0\0\x05\0\0\0\0",
        ),
    },
    Row {
        what: "too many names",
        versions: &[(2, 0, &[b"abc"], 65_536)],
        texts: &[b"abc"],
        order: ByteOrder2::Little,
        bytes: None,
    },
];

// Compares the table of versions whose names stand in another.
#[test]
fn defined_versions(rt: HostRuntime) {
    for row in &DEFINED {
        let records = sure!(&rt; kept(rt.alloc(), row.versions));
        let table = table_of(&rt, row.texts);
        assert!(rt; has_names(&records, &table), "names of versions");
        let found = sure!(&rt; fitting(build_verdef(rt.alloc(), &records, &table, row.order)));
        same(&rt, row.what, &found.as_deref(), &row.bytes);
    }
}
