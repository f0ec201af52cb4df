//! Whether each number of the records that are written fits its field (gABI, Data Representation).
ghost use Rattle.std.specs.Prelude.{◌≡◌};
ghost use Rattle.std.specs.List.{list_all};
ghost use Rattle.elf_image.specs.Kept.{kept_sections};
ghost use Rattle.elf_layout_plan.specs.Plan.{resized};
ghost use Rattle.elf_tables.specs.Fields.{do_fields_fit, does_field_fit};
ghost use Rattle.elf_tables.specs.Spelled.{class_word, entry_fields, file_header_fields, section_fields, segment_fields};
ghost use Rattle.elf_write_spec.specs.Headers.{written_header};
ghost use Rattle.elf_write_contents.specs.FitSteps.{do_unnamed_fit, do_words_fit as do_all_words_fit, unnamed};
ghost use Rattle.elf_write_symbol_tables.specs.WrittenStrings.{AreStrings, strings_at};
ghost use Rattle.elf_write_contents.specs.Inner.{AreHeaders, AreRaw, IsPlanned};
ghost use Rattle.elf_write_contents.specs.Numbers.{do_header_numbers_fit as do_all_fit, do_records_fit as do_records_fit_fields};

use elf_format::form::Form;
use elf_format::records::{EntryNumbers, FileHeader, SectionHeader, SegmentHeader};
use elf_image::Builder;
use elf_layout_plan::Plan;
use elf_write_symbol_tables::made::Made;
use patch_bytes::Wide;

// Whether a number fits a word of the class.
fn does_word_fit(form: Form, number: u64) -> bool
    ensures { result ≡ does_field_fit (class_word form number) }
{
    match form.wide {
        Wide::W32 => number <= u64::from(u32::MAX),
        Wide::W64 => true,
    }
}

// Whether each of these numbers fits a word of the class.
fn do_words_fit(form: Form, numbers: &[u64]) -> bool
    ensures { result ≡ do_all_words_fit form numbers.now }
{
    numbers.iter().all(|number| does_word_fit(form, *number))
}

// Whether each number of the file header fits its field.
fn does_header_fit(form: Form, h: FileHeader) -> bool
    ensures { result ≡ do_fields_fit (file_header_fields form h) }
{
    do_words_fit(form, &[h.e_entry, h.e_phoff, h.e_shoff])
}

// Whether each number of a program header fits its field.
fn does_segment_fit(form: Form, p: SegmentHeader) -> bool
    ensures { result ≡ do_fields_fit (segment_fields form p) }
{
    does_word_fit(form, p.p_offset)
        && does_word_fit(form, p.p_vaddr)
        && does_word_fit(form, p.p_paddr)
        && does_word_fit(form, p.p_filesz)
        && does_word_fit(form, p.p_memsz)
        && does_word_fit(form, p.p_align)
}

// Whether each number of a section header fits its field, whatever the place of its name.
fn does_section_fit(form: Form, s: SectionHeader) -> bool
    ensures fit { result ≡ do_fields_fit (section_fields form s) }
    ensures unnamed { result ≡ do_fields_fit (section_fields form (unnamed s)) }
{
    do_words_fit(
        form,
        &[
            s.sh_flags,
            s.sh_addr,
            s.sh_offset,
            s.sh_size,
            s.sh_addralign,
            s.sh_entsize,
        ],
    )
}

// Whether each number of a dynamic entry fits its field.
fn does_entry_fit(form: Form, e: EntryNumbers) -> bool
    ensures { result ≡ do_fields_fit (entry_fields form e) }
{
    does_word_fit(form, e.d_tag) && does_word_fit(form, e.d_value)
}

// Whether each number of these program headers fits its field.
fn do_segments_fit(form: Form, segments: &[SegmentHeader]) -> bool
    ensures { result ≡ list_all (λ p. do_fields_fit (segment_fields form p)) segments.now }
{
    segments.iter().all(|p| does_segment_fit(form, *p))
}

// Whether each number of these section headers fits its field, whatever the places of their names.
fn do_sections_fit(form: Form, sections: &[SectionHeader]) -> bool
    ensures fit { result ≡ list_all (λ s. do_fields_fit (section_fields form s)) sections.now }
    ensures unnamed { result
        ≡ list_all (λ s. do_fields_fit (section_fields form (unnamed s))) sections.now }
{
    sections.iter().all(|s| does_section_fit(form, *s))
}

// Whether each number of these dynamic entries fits its field.
fn do_entries_fit(form: Form, entries: &[EntryNumbers]) -> bool
    ensures { result ≡ list_all (λ e. do_fields_fit (entry_fields form e)) entries.now }
{
    entries.iter().all(|e| does_entry_fit(form, *e))
}

// Whether each number of these records fits its field.
#[tactic(auto, unfolding(crate::specs::Numbers::do_records_fit, crate::specs::FitSteps::do_unnamed_fit))]
fn do_records_fit(
    form: Form,
    header: FileHeader,
    segments: &[SegmentHeader],
    sections: &[SectionHeader],
    entries: &[EntryNumbers],
) -> bool
    ensures fit { result
        ≡ do_records_fit_fields form header segments.now sections.now entries.now }
    ensures unnamed { result ≡ do_unnamed_fit form header segments.now sections.now entries.now }
{
    does_header_fit(form, header)
        && do_segments_fit(form, segments)
        && do_sections_fit(form, sections)
        && do_entries_fit(form, entries)
}

// Whether each number of the records of an image fits its field.
pub(crate) fn do_header_numbers_fit<'data>(
    read: &Builder<'data>,
    image: &Builder<'data>,
    plan: &Plan,
    made: &[Made<'_>],
    header: FileHeader,
    sections: &[SectionHeader],
    entries: &[EntryNumbers],
) -> bool
    requires planned { IsPlanned read.now image.now plan.now }
    requires strings { AreStrings read.now image.now made.now }
    requires header { header ≡ written_header image.now plan.now }
    requires sections { AreHeaders (resized image.now)
        (strings_at image.now made.now image.now.header.e_shstrndx)
        (kept_sections image.now) plan.now.places sections.now }
    requires entries { AreRaw (resized image.now) plan.now made.now entries.now }
    ensures records { result ≡ do_records_fit_fields image.now.form header plan.now.segments
        sections.now entries.now }
    ensures fit { result ≡ do_all_fit image.now plan.now }
{
    let form = image.form();
    do_records_fit(form, header, plan.segments(), sections, entries)
}
