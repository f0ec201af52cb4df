ghost use Rattle.std.specs.Prelude.{◌≡◌};
ghost use Rattle.elf_format.specs.Dynamic.{value_of_tag as first_value};
ghost use Rattle.test_elf_plain.specs.PlainViews.{source_model, tables_model};
ghost use Rattle.elf_format.specs.Views.{byte_at, count_by_tag, loaded_strings, memory_at_tag, tables_by_tags as tag_tables};

use crate::source::{Loaded, Source, TableSource, TableSources};
use elf_format::constants::{
    DT_STRSZ, DT_STRTAB, DT_SYMTAB, DT_VERDEF, DT_VERDEFNUM, DT_VERNEED, DT_VERNEEDNUM, DT_VERSYM,
};
use elf_format::lookups::value_of_tag;
use elf_format::records::{EntryNumbers, SegmentHeader};

// What is seen from the address that a tag holds.
fn source_by_tag<'a>(
    file: &'a [u8],
    segments: &'a [SegmentHeader],
    raw: &[EntryNumbers],
    tag: u64,
) -> Source<'a>
    ensures { source_model result
        ≡ memory_at_tag (byte_at segments.now file.now) (first_value tag raw.now) }
{
    Source::Segments(Loaded {
        file,
        segments,
        start: value_of_tag(raw, tag),
        size: None,
    })
}

// The number that a tag holds, 0 without it.
fn count_of(raw: &[EntryNumbers], tag: u64) -> u64
    ensures { result ≡ count_by_tag (first_value tag raw.now) }
{
    value_of_tag(raw, tag).unwrap_or(0)
}

// The dynamic strings: from DT_STRTAB on, and DT_STRSZ bytes where that is there.
fn strings<'a>(file: &'a [u8], segments: &'a [SegmentHeader], raw: &[EntryNumbers]) -> Source<'a>
    ensures { source_model result ≡ loaded_strings (byte_at segments.now file.now) raw.now }
{
    Source::Segments(Loaded {
        file,
        segments,
        start: value_of_tag(raw, DT_STRTAB),
        size: value_of_tag(raw, DT_STRSZ),
    })
}

// The tables by their tags, with as many symbols as are handed in.
pub(crate) fn tables_by_tags<'a>(
    file: &'a [u8],
    segments: &'a [SegmentHeader],
    symbol_count: u64,
    raw: &[EntryNumbers],
) -> TableSources<'a>
    ensures { tables_model result
        ≡ tag_tables (byte_at segments.now file.now) symbol_count raw.now }
{
    let texts = strings(file, segments, raw);
    TableSources {
        entry_texts: texts,
        symbols: TableSource {
            bytes: source_by_tag(file, segments, raw, DT_SYMTAB),
            texts,
            count: symbol_count,
        },
        versions: source_by_tag(file, segments, raw, DT_VERSYM),
        definitions: TableSource {
            bytes: source_by_tag(file, segments, raw, DT_VERDEF),
            texts,
            count: count_of(raw, DT_VERDEFNUM),
        },
        needs: TableSource {
            bytes: source_by_tag(file, segments, raw, DT_VERNEED),
            texts,
            count: count_of(raw, DT_VERNEEDNUM),
        },
    }
}
