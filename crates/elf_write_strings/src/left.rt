//! Whether the users of a string table have the texts that they had at read (gABI, String Table).
ghost use Rattle.std.specs.Prelude.{◌≡◌, ◌<◌, IfOk, length, map};
ghost use Rattle.std.specs.List.{slice_get};
ghost use Rattle.std.specs.Str.{bytes_eq};
ghost use Rattle.elf_format.specs.Options.{is_some_and};
ghost use Rattle.elf_image.specs.ImageModel.{needs_model, section_model};
ghost use Rattle.elf_image.specs.Names.{are_same_texts};
ghost use Rattle.elf_image_symbols.specs.Loan.{numbers_now, symbols_now};
ghost use Rattle.elf_layout_plan.specs.Texts.{texts_of_symbols};
ghost use Rattle.elf_write_spec.specs.Ready.{IsEditedReady};
ghost use Rattle.elf_write_strings.specs.LeftSteps.{is_text_left};
ghost use Rattle.elf_write_strings.specs.PlacedTexts.{names_of_sections};
ghost use Rattle.elf_write_strings.specs.WrittenStrings.{are_files_left as are_libraries_left, are_section_names_left as are_sections_left, are_static_names_left as are_statics_left, are_texts_left, do_names_move as do_any_names_move, do_texts_move as do_any_move, files_of, is_list_left};

use crate::texts::{are_left, list_texts};
use crate::told::has_texts_in;
use elf_image::constants::{SHT_DYNAMIC, SHT_DYNSYM, SHT_GNU_VERNEED, SHT_SYMTAB};
use elf_image::{Builder, Section, VersionNeed};
use elf_image_symbols::SymbolsNow;
use elf_layout_sizes::StayingNeeds;
use std::alloc::{AllocError, Global};

// Whether the dynamic list has texts that it had at read, in their order.
fn has_list_left(alloc: Global, read: &Builder<'_>, image: &Builder<'_>) -> Result<bool, AllocError>
    requires { IsEditedReady read.now image.now }
    ensures { IfOk result (λ is. is ≡ is_list_left read.now image.now) }
{
    let staying = StayingNeeds::new(alloc, read, image)?;
    let texts = list_texts(alloc, image, &staying)?;
    match read.dynamic_data() {
        Some(entries) => Ok(are_left(texts.as_slice(), entries)),
        None => Ok(texts.is_empty()),
    }
}

// Whether the symbol at a position has the name that the one with its number at read had.
fn is_name_left(read: SymbolsNow<'_>, now: SymbolsNow<'_>, i: usize) -> bool
    requires { i < length (symbols_now now) }
    ensures { result ≡ is_text_left (texts_of_symbols (symbols_now read.entry))
        (numbers_now now.entry) (texts_of_symbols (symbols_now now.entry)) i }
{
    let number = now.read_number(i);
    number < read.len() && now.name(i) == read.name(number)
}

// Whether each symbol has the name that the one with its number at read had.
fn are_names_left(read: SymbolsNow<'_>, now: SymbolsNow<'_>) -> bool
    ensures { result ≡ are_texts_left (texts_of_symbols (symbols_now read.entry))
        (numbers_now now.entry) (texts_of_symbols (symbols_now now.entry)) }
{
    for i in 0..now.len() {
        if !is_name_left(read, now, i) {
            return false;
        }
    }
    true
}

// Whether each symbol for a link editor has the name that the one with its number at read had.
fn are_static_names_left(read: &Builder<'_>, image: &Builder<'_>) -> bool
    requires { IsEditedReady read.now image.now }
    ensures { result ≡ are_statics_left read.now image.now }
{
    if image.keeps_static_symbols() {
        return true;
    }
    are_names_left(read.symbols(), image.symbols())
}

// Whether the section with that number at read had that name.
fn was_name(read: &[Section<'_>], number: usize, name: &[u8]) -> bool
    ensures { result ≡ is_some_and (bytes_eq name.now)
        (slice_get (names_of_sections (map section_model read.now)) number) }
{
    match read.get(number) {
        Some(section) => name == section.name.as_slice(),
        None => false,
    }
}

// Whether the section at a position has the name that the one with its number at read had.
fn is_section_left(read: &Builder<'_>, image: &Builder<'_>, i: usize) -> bool
    requires ready { IsEditedReady read.now image.now }
    requires within { i < length image.now.sections }
    ensures { result ≡ is_text_left (names_of_sections read.now.sections)
        image.now.section_numbers (names_of_sections image.now.sections) i }
{
    let name = image.sections()[i].name.as_slice();
    was_name(read.sections(), image.read_section(i), name)
}

// Whether each section has the name that the one with its number at read had.
fn are_section_names_left(read: &Builder<'_>, image: &Builder<'_>) -> bool
    requires { IsEditedReady read.now image.now }
    ensures { result ≡ are_sections_left read.now image.now }
{
    for i in 0..image.sections().len() {
        if !is_section_left(read, image, i) {
            return false;
        }
    }
    true
}

// Whether the library has the name that it had at read.
fn is_file_left(read: &VersionNeed<'_>, now: &VersionNeed<'_>) -> bool
    ensures { result ≡ bytes_eq read.now.file.bytes now.now.file.bytes }
{
    read.file.as_slice() == now.file.as_slice()
}

// Whether libraries have the names that they had at read, one by one.
fn are_same_files(read: &[VersionNeed<'_>], now: &[VersionNeed<'_>]) -> bool
    ensures { result ≡ are_same_texts (files_of (map needs_model read.now))
        (files_of (map needs_model now.now)) }
{
    if read.len() != now.len() {
        return false;
    }
    for i in 0..now.len() {
        if !is_file_left(&read[i], &now[i]) {
            return false;
        }
    }
    true
}

// Whether the libraries of which versions are needed have the names that they had at read, one by
// one.
fn are_files_left(read: &Builder<'_>, image: &Builder<'_>) -> bool
    ensures { result ≡ are_libraries_left read.now image.now }
{
    are_same_files(&read.versions().needs, &image.versions().needs)
}

// Whether names of symbols, libraries or sections may stand elsewhere in the table with that number, where it is copied.
fn do_names_move(read: &Builder<'_>, image: &Builder<'_>, number: usize) -> bool
    requires { IsEditedReady read.now image.now }
    ensures { result ≡ do_any_names_move read.now image.now number }
{
    if has_texts_in(image, SHT_DYNSYM, number) && !image.keeps_dynamic_names() {
        return true;
    }
    if has_texts_in(image, SHT_SYMTAB, number) && !are_static_names_left(read, image) {
        return true;
    }
    if has_texts_in(image, SHT_GNU_VERNEED, number) && !are_files_left(read, image) {
        return true;
    }
    image.header().e_shstrndx as usize == number && !are_section_names_left(read, image)
}

// Whether texts of the table with that number may stand elsewhere in it, where it is copied.
pub(crate) fn do_texts_move(
    alloc: Global,
    read: &Builder<'_>,
    image: &Builder<'_>,
    number: usize,
) -> Result<bool, AllocError>
    requires { IsEditedReady read.now image.now }
    ensures { IfOk result (λ move. move ≡ do_any_move read.now image.now number) }
{
    if do_names_move(read, image, number) {
        return Ok(true);
    }
    if !has_texts_in(image, SHT_DYNAMIC, number) {
        return Ok(false);
    }
    let left = has_list_left(alloc, read, image)?;
    Ok(!left)
}
