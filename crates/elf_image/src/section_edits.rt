//! The changes of sections (gABI, Sections).
ghost use Rattle.std.specs.Prelude.{◌≡◌, ◌<◌, filter, if◌then◌else◌, length, map, true, None as none};
ghost use Rattle.std.specs.List.Sorted.{IsNonDecreasing};
ghost use Rattle.elf_format.specs.Options.{is_one_of, is_some_and};
ghost use Rattle.elf_image_symbols.specs.EditedList.{IsName, changed_at};
ghost use Rattle.elf_image.specs.Along.{symbols_along};
ghost use Rattle.elf_image.specs.Deleted.{CanDelete, numbers_left, parts_left, segments_left, without_sections};
ghost use Rattle.elf_image.specs.ImageModel.{section_model, segment_model, text_model};
ghost use Rattle.elf_image.specs.SectionEdits.{with_section_name};

use crate::builder::{Builder, Segment};
use elf_image_headers::section::Section;
use patch_bytes::ByteString;

impl<'data> Builder<'data> {
    /// Gives the section at a position another name, without a NUL (gABI, Sections, `sh_name`). Takes no memory.
    pub fn set_section_name(&mut self, i: usize, name: ByteString<'data>)
        requires there { i < length self.old.sections }
        requires nul { IsName name.bytes }
        ensures { self.new ≡ record self.old {
          changed = true;
          sections = changed_at i (with_section_name name.entry.bytes) self.old.sections;
        } }
    {
        name_section(&mut self.sections, i, name);
        self.changed = true;
    }

    /// Deletes the sections with these numbers at read, which rise, where they can go; where none is told nothing changes. Along
    /// go static symbols, whose numbers at read are told, and program headers, of which those that are left are told; the
    /// interpreter goes with its section (gABI, Sections, Symbol Table, Program Header). Takes no memory.
    pub fn delete_sections(
        &mut self,
        gone: &[usize],
        symbols: &[usize],
        segments: Vec<Segment<'data>>,
    )
        requires rising { IsNonDecreasing gone.now }
        requires sections { CanDelete self.old gone.now }
        requires along { symbols.now ≡ symbols_along self.old gone.now }
        requires order { IsNonDecreasing symbols.now }
        requires segments { map segment_model segments.items ≡ segments_left gone.now self.old }
        ensures { self.new ≡ without_sections gone.now self.old }
    {
        if gone.is_empty() {
            return;
        }
        let goes = does_go(gone, self.interpreter_number());
        keep_sections(&mut self.sections, &self.section_numbers, gone);
        keep_numbers(&mut self.section_numbers, gone);
        self.lists.symbols.delete_all(symbols);
        clear_interpreter(&mut self.interpreter, goes);
        self.segments = segments;
        self.changed = true;
    }
}

// The section at a position gets the name.
fn name_section<'data>(sections: &mut Vec<Section<'data>>, i: usize, name: ByteString<'data>)
    requires { i < length sections.old.items }
    ensures { map section_model sections.new.items
        ≡ changed_at i (with_section_name name.entry.bytes) (map section_model sections.old.items) }
{
    sections[i].name = name;
}

// Whether a number is one of those that rise.
fn contains(numbers: &[usize], number: usize) -> bool
    requires { IsNonDecreasing numbers.now }
    ensures { result ≡ is_one_of numbers.now number }
{
    numbers.binary_search(&number).is_ok()
}

// Whether there is a number, and it is one of those that rise.
fn does_go(gone: &[usize], number: Option<usize>) -> bool
    requires { IsNonDecreasing gone.now }
    ensures { result ≡ is_some_and (is_one_of gone.now) number }
{
    match number {
        Some(number) => contains(gone, number),
        None => false,
    }
}

// Leaves the sections whose numbers don't go. Each section has its number.
fn keep_sections(sections: &mut Vec<Section<'_>>, numbers: &[usize], gone: &[usize])
    requires numbered { length numbers.now ≡ length sections.old.items }
    requires rising { IsNonDecreasing gone.now }
    ensures { map section_model sections.new.items
        ≡ parts_left gone.now numbers.now (map section_model sections.old.items) }
{
    let mut kept = 0;
    for i in 0..numbers.len() {
        if !contains(gone, numbers[i]) {
            sections.swap(kept, i);
            kept += 1;
        }
    }
    sections.truncate(kept);
}

// Leaves the numbers that don't go.
fn keep_numbers(numbers: &mut Vec<usize>, gone: &[usize])
    requires { IsNonDecreasing gone.now }
    ensures { numbers.new.items ≡ numbers_left gone.now numbers.old.items }
{
    numbers.retain(|number| !contains(gone, *number));
}

// Leaves no interpreter where it goes.
fn clear_interpreter(interpreter: &mut Option<ByteString<'_>>, goes: bool)
    ensures { text_model interpreter.new
        ≡ (if goes then none else text_model interpreter.old) }
{
    if goes {
        *interpreter = None;
    }
}
