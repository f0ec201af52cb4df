// What contradicts a rule on the first bytes of a file, its header and its header tables.
ghost use Rattle.std.specs.Prelude.{◌≡◌, option_map, slice_index};
ghost use Rattle.elf_format.specs.File.{opened_of};
ghost use Rattle.elf_format.specs.Seen.{opened_model};
ghost use Rattle.elf_image_reasons.specs.Details.{early_detail as early_by, kind_detail as kind_by, kind_of_file as kind_file, past_end as past_by, table_detail as table_by, tables_of_file as tables_file};

use crate::rule::Rule;
use elf_format::constants::{ET_DYN, ET_EXEC};
use elf_format::form::Form;
use elf_format::numbers::{part, read_file_header};
use elf_format::opening::form;
use elf_format::records::FileHeader;
use elf_image_flaws::detail::{Detail, Piece};
use elf_image_flaws::flaws::first_there;

// The byte at a position, 0 past the end.
fn byte(file: &[u8], position: usize) -> u8
    ensures { result ≡ slice_index file.now position }
{
    if position < file.len() {
        file[position]
    } else {
        0
    }
}

// Of the file header: the type, or that there are no section headers.
fn kind_detail(file: &[u8], form: Form, header: FileHeader) -> Option<Detail>
    ensures { result ≡ kind_by (opened_model file.now (form, header)) }
{
    let e_type = header.e_type;
    if e_type != ET_EXEC && e_type != ET_DYN {
        return Some(Detail::FileType { e_type });
    }
    if header.e_shoff == 0 || header.e_shnum == 0 {
        return Some(Detail::NoSections);
    }
    None
}

// A range of the file, where it ends past the end.
fn past_end(piece: Piece, start: u64, size: u64, length: usize) -> Option<Detail>
    ensures { result ≡ past_by piece start size length }
{
    if (length as u128) < start as u128 + size as u128 {
        return Some(Detail::PastEnd {
            piece,
            start,
            size,
            length,
        });
    }
    None
}

// The first header table that ends past the end.
fn table_detail(file: &[u8], form: Form, header: FileHeader) -> Option<Detail>
    ensures { result ≡ table_by (opened_model file.now (form, header)) }
{
    let segments = header.e_phnum as u64 * form.segment_header_size() as u64;
    let sections = header.e_shnum as u64 * form.section_header_size() as u64;
    first_there(
        past_end(Piece::SegmentTable, header.e_phoff, segments, file.len()),
        past_end(Piece::SectionTable, header.e_shoff, sections, file.len()),
    )
}

// The file header, where it lies in the file.
#[tactic(auto, unfolding(elf_format::specs::File::opened_of))]
fn header_of(file: &[u8]) -> Option<(Form, FileHeader)>
    ensures { option_map (opened_model file.now) result ≡ opened_of file.now }
{
    let form = form(file)?;
    let size = form.file_header_size();
    if size > file.len() {
        return None;
    }
    Some((form, read_file_header(form, part(file, 0, size))))
}

// What contradicts the rule on the kind of a file.
fn kind_of_file(file: &[u8]) -> Option<Detail>
    ensures { result ≡ kind_file file.now }
{
    let (form, header) = header_of(file)?;
    kind_detail(file, form, header)
}

// What contradicts the rule on header tables.
fn tables_of_file(file: &[u8]) -> Option<Detail>
    ensures { result ≡ tables_file file.now }
{
    let (form, header) = header_of(file)?;
    table_detail(file, form, header)
}

// What contradicts a rule on the first bytes of a file, its header or its header tables; `None` for the other rules.
pub(crate) fn early_detail(file: &[u8], rule: Rule) -> Option<Detail>
    ensures { result ≡ early_by rule file.now }
{
    match rule {
        Rule::Identification | Rule::FileHeader => Some(Detail::Length { length: file.len() }),
        Rule::Class => Some(Detail::Class {
            class: byte(file, 4),
            order: byte(file, 5),
            version: byte(file, 6),
        }),
        Rule::FileKind => kind_of_file(file),
        Rule::HeaderTables => tables_of_file(file),
        _ => None,
    }
}
