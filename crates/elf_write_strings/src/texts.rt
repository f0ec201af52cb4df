//! Where the texts of the dynamic list stand in its string table (gABI, String Table).
ghost use Rattle.std.specs.Prelude.{◌≡◌, ◌<◌, All, IfOk, IsSome, Some, length, map};
ghost use Rattle.elf_format.specs.Answers.{borrowed};
ghost use Rattle.std.specs.List.{slice_get};
ghost use Rattle.elf_format.specs.Options.{is_some_and, list_at};
ghost use Rattle.elf_image.specs.ImageModel.{entry_model};
ghost use Rattle.elf_image.specs.Kept.{image_at_read};
ghost use Rattle.elf_image.specs.Lookups.{type_position};
ghost use Rattle.elf_format.specs.declared.constants.TheConstants.{SHT_DYNAMIC as DYNAMIC};
ghost use Rattle.elf_layout_sizes.specs.Staying.{staying_entries};
ghost use Rattle.elf_layout_plan.specs.WrittenNeeds.{AreWritten};
ghost use Rattle.elf_layout_plan.specs.Needs.{written_entries};
ghost use Rattle.elf_layout_plan.specs.Texts.{is_subsequence, texts_of_entries};
ghost use Rattle.elf_tables.specs.Strings.{place_of};
ghost use Rattle.elf_write_spec.specs.Ready.{IsEditedReady};
ghost use Rattle.elf_write_strings.specs.WrittenStrings.{AreStrings, strings_at};
ghost use Rattle.elf_write_strings.specs.PlacedTexts.{TextsStand, content_at, has_text as has_that_text, link_at, numbers_in, places_among as places_found};

use crate::made::{Made, made_of};
use elf_format::records::EntryNumbers;
use elf_format::tables::read_entries;
use elf_format::view_fault::ViewFault;
use elf_image::{Builder, Dynamic};
use elf_layout_sizes::StayingNeeds;
use elf_tables::Finished;
use std::alloc::{AllocError, Global};

// The texts of the entries that stay, in order.
fn texts_of<'a>(
    alloc: Global,
    entries: &'a [Dynamic<'_>],
    staying: &StayingNeeds,
) -> Result<Vec<&'a [u8]>, AllocError>
    ensures { IfOk result (λ texts. map borrowed texts.items ≡ texts_of_entries
        (staying_entries staying.now.are_gone (map entry_model entries.entry.now))) }
{
    let mut texts = Vec::new(alloc);
    for entry in entries {
        if !staying.does_entry_stay(entry) {
            continue;
        }
        if let Dynamic::Text { val, .. } = entry {
            texts.push(val.as_slice())?;
        }
    }
    Ok(texts)
}

/// The texts of the dynamic list that is written, in order; none without a list. Error: `AllocError`.
pub fn list_texts<'a>(
    alloc: Global,
    image: &'a Builder<'_>,
    staying: &StayingNeeds,
) -> Result<Vec<&'a [u8]>, AllocError>
    requires { AreWritten (image_at_read image.now) image.now staying.now }
    ensures { IfOk result (λ texts. map borrowed texts.items ≡ list_at texts_of_entries
        (written_entries (image_at_read image.entry.now) image.entry.now)) }
{
    match image.dynamic_data() {
        Some(entries) => texts_of(alloc, entries, staying),
        None => Ok(Vec::new(alloc)),
    }
}

// Whether an entry has that text.
fn has_text(entry: &Dynamic<'_>, text: &[u8]) -> bool
    ensures { result ≡ has_that_text text.now (entry_model entry.now) }
{
    match entry {
        Dynamic::Text { val, .. } => text == val.as_slice(),
        _ => false,
    }
}

// Whether a text stands at a position, and an entry has it.
fn is_next(texts: &[&[u8]], next: usize, entry: &Dynamic<'_>) -> bool
    ensures { result ≡ is_some_and (λ text. has_that_text text (entry_model entry.now))
        (slice_get (map borrowed texts.now) next) }
{
    match texts.get(next) {
        Some(text) => has_text(entry, *text),
        None => false,
    }
}

// Whether texts are those of entries, perhaps with some of these left out.
pub(crate) fn are_left(texts: &[&[u8]], entries: &[Dynamic<'_>]) -> bool
    ensures { result ≡ is_subsequence (map borrowed texts.now)
        (texts_of_entries (map entry_model entries.now)) }
{
    let mut next = 0;
    for entry in entries {
        if is_next(texts, next, entry) {
            next += 1;
        }
    }
    next == texts.len()
}

// Where texts stand, each of them where the next entry with that text says.
fn places_among(
    alloc: Global,
    texts: &[&[u8]],
    entries: &[Dynamic<'_>],
    numbers: &[EntryNumbers],
) -> Result<Vec<u64>, AllocError>
    ensures { IfOk result (λ places. places.items ≡ places_found (map borrowed texts.now)
        (map entry_model entries.now) numbers.now) }
{
    let mut places = Vec::new(alloc);
    let count = entries.len().min(numbers.len());
    for i in 0..count {
        if is_next(texts, places.len(), &entries[i]) {
            places.push(numbers[i].d_value)?;
        }
    }
    Ok(places)
}

// The numbers of the entries of a dynamic section's bytes; none without a DT_NULL.
pub(crate) fn read_numbers(
    alloc: Global,
    read: &Builder<'_>,
    bytes: &[u8],
) -> Result<Vec<EntryNumbers>, AllocError>
    ensures { IfOk result (λ numbers. numbers.items ≡ numbers_in read.now bytes.now) }
{
    match read_entries(alloc, read.form(), read.source().len(), bytes) {
        Ok(numbers) => Ok(numbers),
        Err(ViewFault::Absent) => Ok(Vec::new(alloc)),
        Err(ViewFault::Memory) => Err(AllocError),
    }
}

// Where texts stand in the table that was read, by the entries of the section at a position.
fn copied_places(
    alloc: Global,
    read: &Builder<'_>,
    image: &Builder<'_>,
    list: usize,
    texts: &[&[u8]],
) -> Result<Vec<u64>, AllocError>
    requires { list < length image.now.sections }
    ensures { IfOk result (λ places. places.items ≡ places_found (map borrowed texts.now)
        (list_at (λ es. es) read.now.entries)
        (numbers_in read.now (content_at image.now list))) }
{
    let Some(entries) = read.dynamic_data() else {
        return Ok(Vec::new(alloc));
    };
    let numbers = read_numbers(alloc, read, image.sections()[list].content)?;
    places_among(alloc, texts, entries, numbers.as_slice())
}

// Where texts stand in a table that holds each of them.
fn made_places(alloc: Global, table: &Finished<'_>, texts: &[&[u8]]) -> Result<Vec<u64>, AllocError>
    requires { All (λ text. IsSome (place_of table.now text.now)) texts.now }
    ensures { IfOk result (λ places.
        TextsStand table.now.bytes (map borrowed texts.now) places.items) }
{
    let mut places = Vec::new(alloc);
    for text in texts {
        places.push(u64::from(table.offset_of(*text).unwrap()))?;
    }
    Ok(places)
}

/// Where the texts of the dynamic list stand in its string table, as that is written. Error: `AllocError`.
pub fn text_places<'data>(
    alloc: Global,
    read: &Builder<'data>,
    image: &Builder<'data>,
    made: &[Made<'_>],
    list: usize,
    texts: &[&[u8]],
) -> Result<Vec<u64>, AllocError>
    requires ready { IsEditedReady read.now image.now }
    requires strings { AreStrings read.now image.now made.now }
    requires list { type_position image.now DYNAMIC ≡ Some list }
    requires texts { map borrowed texts.now
        ≡ list_at texts_of_entries (written_entries read.now image.now) }
    ensures { IfOk result (λ places.
        TextsStand (strings_at image.now made.now (link_at image.now list))
        (map borrowed texts.now) places.items) }
{
    let link = image.sections()[list].sh_link as usize;
    match made_of(made, link) {
        Some(made) => made_places(alloc, &made.table, texts),
        None => copied_places(alloc, read, image, list, texts),
    }
}
