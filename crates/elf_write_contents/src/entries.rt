//! The entries of the dynamic list, and their bytes (gABI, Dynamic Section).
ghost use Rattle.std.specs.Prelude.{◌≡◌, ◌++◌, ◌*◌, ◌≤◌, IfOk, IsTrue, OnOk, length, map, replicate};
ghost use Rattle.std.specs.List.{list_all};
ghost use Rattle.elf_format.specs.Records.{entry_size};
ghost use Rattle.elf_tables.specs.Fields.{do_fields_fit};
ghost use Rattle.elf_tables.specs.Spelled.{entry_fields};
ghost use Rattle.elf_image.specs.ImageModel.{entry_model};
ghost use Rattle.elf_image.specs.Kept.{image_at_read};
ghost use Rattle.elf_layout_plan.specs.Plan.{resized};
ghost use Rattle.elf_write_spec.specs.Contents.{spelled_list, table_value as value_of_table};
ghost use Rattle.elf_layout_plan.specs.Staying.{staying_entries};
ghost use Rattle.elf_layout_plan.specs.WrittenNeeds.{AreWritten};
ghost use Rattle.elf_write_contents.specs.EntrySteps.{numbers_with, places_behind as places_left, value_with};
ghost use Rattle.elf_write_symbol_tables.specs.WrittenStrings.{AreStrings};
ghost use Rattle.elf_write_contents.specs.Inner.{AreRaw, IsPlanned};

mod tables;

use self::tables::table_value;
use elf_format::form::Form;
use elf_format::records::EntryNumbers;
use elf_image::constants::SHT_DYNAMIC;
use elf_image::{Builder, Dynamic};
use elf_layout_plan::Plan;
use elf_tables::spelled::push_entry;
use elf_write_symbol_tables::StayingNeeds;
use elf_write_symbol_tables::made::Made;
use elf_write_symbol_tables::texts::{list_texts, text_places};
use std::alloc::{AllocError, Global};

// The value of an entry: a table's, its own number, or the first of the places.
fn value_of(
    image: &Builder<'_>,
    plan: &Plan,
    staying: &StayingNeeds,
    entry: &Dynamic<'_>,
    places: &[u64],
) -> u64
    requires { AreWritten (image_at_read image.now) image.now staying.now }
    ensures { result ≡ value_with (λ tag. value_of_table (resized image.now) plan.now tag)
        places.now (entry_model entry.now) }
{
    match entry {
        Dynamic::Auto { tag } => table_value(image, plan, staying, *tag),
        Dynamic::Integer { val, .. } => *val,
        Dynamic::Text { .. } => match places.first() {
            Some(place) => *place,
            None => 0,
        },
    }
}

// The places of texts that are left behind an entry.
fn places_behind<'p>(entry: &Dynamic<'_>, places: &'p [u64]) -> &'p [u64]
    ensures { result.now ≡ places_left (entry_model entry.now) places.entry.now }
{
    match entry {
        Dynamic::Text { .. } => match places.split_first() {
            Some((_, rest)) => rest,
            None => places,
        },
        _ => places,
    }
}

// The numbers of the entries that stay, each text at the next of the places.
fn numbers_of(
    alloc: Global,
    image: &Builder<'_>,
    plan: &Plan,
    staying: &StayingNeeds,
    entries: &[Dynamic<'_>],
    places: &[u64],
) -> Result<Vec<EntryNumbers>, AllocError>
    requires { AreWritten (image_at_read image.now) image.now staying.now }
    ensures { IfOk result (λ raw. raw.items
        ≡ numbers_with (λ tag. value_of_table (resized image.now) plan.now tag) places.now
        (staying_entries staying.now.are_gone (map entry_model entries.now))) }
{
    let mut raw = Vec::new(alloc);
    let mut left = places;
    for entry in entries {
        if !staying.does_entry_stay(entry) {
            continue;
        }
        let d_tag = entry.tag();
        let d_value = value_of(image, plan, staying, entry, left);
        raw.push(EntryNumbers { d_tag, d_value })?;
        left = places_behind(entry, left);
    }
    Ok(raw)
}

// The numbers of the entries that are written.
pub(crate) fn raw_entries<'data>(
    alloc: Global,
    read: &Builder<'data>,
    image: &Builder<'data>,
    plan: &Plan,
    staying: &StayingNeeds,
    made: &[Made<'_>],
) -> Result<Vec<EntryNumbers>, AllocError>
    requires planned { IsPlanned read.now image.now plan.now }
    requires staying { AreWritten read.now image.now staying.now }
    requires strings { AreStrings read.now image.now made.now }
    ensures { IfOk result (λ raw. AreRaw (resized image.now) plan.now made.now raw.items) }
{
    let Some(list) = image.type_position(SHT_DYNAMIC) else {
        return Ok(Vec::new(alloc));
    };
    let Some(entries) = image.dynamic_data() else {
        return Ok(Vec::new(alloc));
    };
    let texts = list_texts(alloc, image, staying)?;
    let places = text_places(alloc, read, image, made, list, texts.as_slice())?;
    numbers_of(alloc, image, plan, staying, entries, places.as_slice())
}

// Appends so many zeros.
fn push_zeros(bytes: &mut Vec<u8>, count: u64) -> Result<(), AllocError>
    ensures { OnOk result (bytes.new.items ≡ bytes.old.items ++ replicate count 0) }
{
    for _ in 0..count {
        bytes.push(0)?;
    }
    Ok(())
}

// So many bytes: entries, with zeros behind them.
#[tactic(auto, unfolding(elf_write_spec::specs::Contents::spelled_list))]
pub(crate) fn list_content(
    alloc: Global,
    form: Form,
    raw: &[EntryNumbers],
    size: u64,
) -> Result<Vec<u8>, AllocError>
    requires fit { IsTrue (list_all (λ e. do_fields_fit (entry_fields form e)) raw.now) }
    requires room { length raw.now * entry_size form ≤ size }
    ensures { IfOk result (λ bytes. bytes.items ≡ spelled_list form raw.now size) }
{
    let mut bytes = Vec::new(alloc);
    for entry in raw {
        push_entry(&mut bytes, form, *entry)?;
    }
    push_zeros(
        &mut bytes,
        size - raw.len() as u64 * form.entry_size() as u64,
    )?;
    Ok(bytes)
}
