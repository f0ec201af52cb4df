//! Tables of needed versions: their bytes, which were laid out by hand.
ghost use Rattle.std.specs.Prelude.{◌≡◌, ◌&&◌, is_some, map};
ghost use Rattle.std.specs.List.{list_all};
ghost use Rattle.elf_image.specs.ImageModel.{needs_model};
ghost use Rattle.elf_tables.specs.Strings.{place_of};
ghost use Rattle.elf_tables.specs.VersionRecords.{has_needs_texts};

use crate::support::{fitting, same, table_of};
use elf_format::{ByteOrder2, ByteString};
use elf_image::{VersionNeed, VersionNeedName};
use elf_tables::{Finished, build_verneed};
use std::alloc::{AllocError, Global};

// Whether a table has the names of these versions.
fn has_all(versions: &[VersionNeedName<'_>], table: &Finished<'_>) -> bool
    ensures { result ≡ list_all (λ v. is_some (place_of table.now v.name.bytes)) versions.now }
{
    versions.iter().all(|version| table.offset_of(version.name.as_slice()).is_some())
}

// Whether a table has the name of a library and those of the versions needed of it.
fn has_texts(needs: &VersionNeed<'_>, table: &Finished<'_>) -> bool
    ensures { result
        ≡ (is_some (place_of table.now needs.now.file.bytes)
        && list_all (λ v. is_some (place_of table.now v.name.bytes)) needs.now.versions.items) }
{
    table.offset_of(needs.file.as_slice()).is_some() && has_all(&needs.versions, table)
}

// Whether a table has the names of each of these libraries and of the versions needed of them.
fn has_each(records: &[VersionNeed<'_>], table: &Finished<'_>) -> bool
    ensures { result ≡ list_all (λ n. is_some (place_of table.now n.file.bytes)
        && list_all (λ v. is_some (place_of table.now v.name.bytes)) n.versions.items) records.now }
{
    records.iter().all(|needs| has_texts(needs, table))
}

// Whether a table has the names that are kept of libraries and of the versions needed of them.
fn has_names(records: &[VersionNeed<'_>], table: &Finished<'_>) -> bool
    ensures { result ≡ has_needs_texts table.now (map needs_model records.now) }
{
    has_each(records, table)
}

// A library, the versions needed of it, and how often each of them is: the number, the flags, the name of each.
type Needs = (&'static [u8], &'static [(u16, u16, &'static [u8])], u32);

// The versions as they are kept.
fn kept_versions(
    alloc: Global,
    needs: &Needs,
) -> Result<Vec<VersionNeedName<'static>>, AllocError> {
    let mut kept = Vec::new(alloc);
    for (index, flags, name) in needs.1 {
        for _ in 0..needs.2 {
            kept.push(VersionNeedName {
                index: *index,
                name: ByteString::borrowed(name),
                flags: *flags,
            })?;
        }
    }
    Ok(kept)
}

// The libraries as they are kept.
fn kept(alloc: Global, libraries: &[Needs]) -> Result<Vec<VersionNeed<'static>>, AllocError> {
    let mut kept = Vec::new(alloc);
    for needs in libraries {
        kept.push(VersionNeed {
            file: ByteString::borrowed(needs.0),
            versions: kept_versions(alloc, needs)?,
        })?;
    }
    Ok(kept)
}

// Needed versions, texts of a table, and the bytes. There are none where a number is too large.
struct Row {
    what: &'static str,
    libraries: &'static [Needs],
    texts: &'static [&'static [u8]],
    bytes: Option<&'static [u8]>,
}

static NEEDED: [Row; 3] = [
    Row {
        what: "no library",
        libraries: &[],
        texts: &[],
        bytes: Some(b""),
    },
    // The texts stand at 1, 11 and 23.
    Row {
        what: "two versions of a library",
        libraries: &[(
            b"libc.so.6",
            &[(3, 0, b"GLIBC_2.2.5"), (2, 2, b"GLIBC_2.34")],
            1,
        )],
        texts: &[b"GLIBC_2.34", b"GLIBC_2.2.5", b"libc.so.6"],
        bytes: Some(
            b"\x01\0\x02\0\x01\0\0\0\x10\0\0\0\0\0\0\0\
            \x75\x1a\x69\x09\0\0\x03\0\x0b\0\0\0\x10\0\0\0\
            \xb4\x91\x96\x06\x02\0\x02\0\x17\0\0\0\0\0\0\0",
        ),
    },
    Row {
        what: "too many versions",
        libraries: &[(b"abc", &[(2, 0, b"abc")], 65_536)],
        texts: &[b"abc"],
        bytes: None,
    },
];

// Compares the table of versions whose texts stand in another.
#[test]
fn needed_versions(rt: HostRuntime) {
    for row in &NEEDED {
        let records = sure!(&rt; kept(rt.alloc(), row.libraries));
        let table = table_of(&rt, row.texts);
        assert!(rt; has_names(&records, &table), "texts of versions");
        let order = ByteOrder2::Little;
        let found = sure!(&rt; fitting(build_verneed(rt.alloc(), &records, &table, order)));
        same(&rt, row.what, &found.as_deref(), &row.bytes);
    }
}
