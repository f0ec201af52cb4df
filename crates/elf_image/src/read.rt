//! The reader: the read rules in their order, each in time in proportion to what it looks at.
ghost use Rattle.std.specs.Prelude.{◌≡◌, ◌≢◌, Ok, Err, MatchResult, All, length, map, IfOk, IfSome};
ghost use Rattle.elf_format.specs.Image.{counted as numbers_below, image_of, interpreter_read};
ghost use Rattle.elf_image.specs.ImageSteps.{ImageRead, LinksRead, TextsRead, image_built, image_by_groups, image_gathered, listed_in, listed_model, named_in, named_model};
ghost use Rattle.elf_image.specs.Edited.{IsEdited};
ghost use Rattle.elf_image_symbols.specs.EditedLists.{edits_of_none};
ghost use Rattle.elf_image.specs.ImageModel.{segment_model, text_model};
ghost use Rattle.elf_image.specs.SymbolsRead.{AreSymbolsOfFile, AreSymbolsRead};
ghost use Rattle.elf_format.specs.Answers.{Gives, borrowed};
ghost use Rattle.elf_format.specs.Stages.{last_rules};
ghost use Rattle.elf_image_versions.specs.Read.{Passes, Reads, parts_model};
ghost use Rattle.elf_format.specs.Rules.{checked, data_of, raw_entries as entries_of, there_or};
ghost use Rattle.elf_format.specs.declared.fault.ElfFault.TheVariants.{BadText};
ghost use Rattle.elf_image_versions.specs.LinkSteps.{IsChecked};
ghost use Rattle.elf_image_versions.specs.WalkSteps.{AreDefinitions, AreNeeds};

pub(crate) mod texts;

use crate::builder::{Builder, Segment};
use crate::read::texts::entries::entries;
use crate::read::texts::sections::sections;
use crate::read::texts::symbols::symbol_lists;
use crate::version::Versions;
use elf_format::fault::ElfFault;
use elf_format::header::Header;
use elf_format::lookups::interpreter;
use elf_format::numbers::counted;
use elf_format::records::{EntryNumbers, SegmentHeader};
use elf_format::section_data::SectionData;
use elf_format::versions::{RawDefinition, RawNeeds};
use elf_format::view_fault::ViewFault;
use elf_image_headers::dynamic::Dynamic;
use elf_image_headers::section::Section;
use elf_image_placement::placement::{check_placement, header_table_loaded};
use elf_image_symbols::lists::{EditedLists, SymbolLists};
use elf_image_versions::dynamic::{check_links, raw_entries};
use elf_image_versions::headers::{Headers, read_headers};
use elf_image_versions::kept::{definitions, needs};
use elf_image_versions::linked::{Checked, are_tables_linked, check_relocations, kind_of};
use elf_image_versions::rule::are_versions_right;
use elf_image_versions::walks::{Walk, walk_definitions, walk_needs};
use patch_bytes::ByteString;
use std::alloc::{AllocError, Global};

// The program headers.
fn segments<'data>(
    alloc: Global,
    headers: &[SegmentHeader],
) -> Result<Vec<Segment<'data>>, AllocError>
    ensures { IfOk result (λ made. map segment_model made.items ≡ headers.now) }
{
    let mut made = Vec::with_capacity(alloc, headers.len())?;
    for numbers in headers {
        made.push(Segment { numbers: *numbers })?;
    }
    Ok(made)
}

// What the bytes of each section are.
fn kinds(
    alloc: Global,
    parts: &Headers<'_>,
    checked: &[Checked],
) -> Result<Vec<SectionData>, AllocError>
    requires { All (IsChecked parts.now.form parts.now.file.now) checked.now }
    ensures { IfOk result (λ made.
        made.items ≡ map (data_of (parts_model parts.now)) parts.now.sections.items) }
{
    let mut made = Vec::with_capacity(alloc, parts.sections.len())?;
    for section in parts.sections.as_slice() {
        made.push(kind_of(parts, checked, *section))?;
    }
    Ok(made)
}

// The parts of an image that have names: sections and symbols.
#[derive(Drop)]
pub(crate) struct Named<'data> {
    pub(crate) sections: Vec<Section<'data>>,
    pub(crate) lists: SymbolLists<'data>,
}

// The dynamic list of an image, and its versions.
#[derive(Drop)]
pub(crate) struct Listed<'data> {
    pub(crate) dynamic: Option<Vec<Dynamic<'data>>>,
    pub(crate) versions: Versions<'data>,
}

// The sections and symbols, absent where a name isn't there. The symbols may be known.
#[tactic(auto, unfolding(crate::specs::ImageSteps::named_in))]
fn named_parts<'data>(
    alloc: Global,
    parts: &Headers<'data>,
    raw: &[EntryNumbers],
    kinds: &[SectionData],
    known: Option<&SymbolLists<'data>>,
) -> Result<Named<'data>, ViewFault>
    requires kinds { kinds.now ≡ map (data_of (parts_model parts.now)) parts.now.sections.items }
    requires raw { raw.now ≡ entries_of (parts_model parts.now) }
    requires known { IfSome known (λ lists. AreSymbolsRead (parts_model parts.now) lists.now) }
    ensures named { Gives named_model result (named_in (parts_model parts.now)) }
    ensures lists { IfOk result (λ named. AreSymbolsRead (parts_model parts.now) named.lists) }
{
    let sections = sections(alloc, parts, kinds)?;
    let Some(lists) = symbol_lists(parts, raw, known) else {
        return Err(ViewFault::Absent);
    };
    Ok(Named { sections, lists })
}

// The dynamic list and the versions, absent where a text isn't there.
#[tactic(auto, unfolding(crate::specs::ImageSteps::listed_in))]
fn listed_parts<'data>(
    alloc: Global,
    parts: &Headers<'data>,
    raw: &[EntryNumbers],
    defined: &Walk<RawDefinition>,
    needed: &Walk<RawNeeds>,
) -> Result<Listed<'data>, ViewFault>
    requires raw { raw.now ≡ entries_of (parts_model parts.now) }
    requires defined { AreDefinitions (parts_model parts.now) defined.now }
    requires needed { AreNeeds (parts_model parts.now) needed.now }
    ensures { Gives listed_model result (listed_in (parts_model parts.now)) }
{
    let dynamic = entries(alloc, parts, raw)?;
    let definitions = definitions(alloc, parts, raw, &defined.values)?;
    let needs = needs(alloc, parts, raw, &needed.values)?;
    Ok(Listed {
        dynamic,
        versions: Versions { definitions, needs },
    })
}

// What is kept of a file besides its header tables.
#[derive(Drop)]
pub(crate) struct Gathered<'data> {
    segments: Vec<Segment<'data>>,
    named: Named<'data>,
    listed: Listed<'data>,
    interpreter: Option<ByteString<'data>>,
    // The numbers at read of the sections.
    section_numbers: Vec<usize>,
}

// The image that has these parts.
fn gather<'data>(
    parts: &Headers<'data>,
    segments: Vec<Segment<'data>>,
    named: Named<'data>,
    listed: Listed<'data>,
    section_numbers: Vec<usize>,
) -> Gathered<'data>
    requires segments { map segment_model segments.items ≡ parts.now.segments.items }
    requires numbered { section_numbers.items ≡ numbers_below (length named.sections.items) }
    ensures image { image_gathered (parts_model parts.now) result
        ≡ image_built (parts_model parts.now) named.entry listed.entry }
    ensures lists { result.named.lists ≡ named.entry.lists }
{
    Gathered {
        segments,
        named,
        listed,
        interpreter: interpreter_kept(parts),
        section_numbers,
    }
}

// The parts together with the program headers and the numbers of the sections.
fn gather_all<'data>(
    alloc: Global,
    parts: &Headers<'data>,
    named: Named<'data>,
    listed: Listed<'data>,
) -> Result<Gathered<'data>, AllocError>
    ensures image { IfOk result (λ made. image_gathered (parts_model parts.now) made
        ≡ image_built (parts_model parts.now) named.entry listed.entry) }
    ensures lists { IfOk result (λ made. made.named.lists ≡ named.entry.lists) }
{
    let section_numbers = counted(alloc, named.sections.len())?;
    let segments = segments(alloc, &parts.segments)?;
    Ok(gather(parts, segments, named, listed, section_numbers))
}

// The file's image in its parts, absent where a text isn't there.
#[tactic(auto, unfolding(crate::specs::ImageSteps::image_by_groups))]
fn image<'data>(
    alloc: Global,
    parts: &Headers<'data>,
    raw: &[EntryNumbers],
    kinds: &[SectionData],
    defined: &Walk<RawDefinition>,
    needed: &Walk<RawNeeds>,
    known: Option<&SymbolLists<'data>>,
) -> Result<Gathered<'data>, ViewFault>
    requires kinds { kinds.now ≡ map (data_of (parts_model parts.now)) parts.now.sections.items }
    requires raw { raw.now ≡ entries_of (parts_model parts.now) }
    requires defined { AreDefinitions (parts_model parts.now) defined.now }
    requires needed { AreNeeds (parts_model parts.now) needed.now }
    requires known { IfSome known (λ lists. AreSymbolsRead (parts_model parts.now) lists.now) }
    ensures image { Gives (image_gathered (parts_model parts.now)) result
        (image_by_groups (parts_model parts.now)) }
    ensures lists { IfOk result (λ made. AreSymbolsRead (parts_model parts.now) made.named.lists) }
{
    let named = named_parts(alloc, parts, raw, kinds, known)?;
    let listed = listed_parts(alloc, parts, raw, defined, needed)?;
    Ok(gather_all(alloc, parts, named, listed)?)
}

// The bytes of the interpreter's section, where there is a PT_INTERP.
fn interpreter_kept<'data>(parts: &Headers<'data>) -> Option<ByteString<'data>>
    ensures { text_model result ≡ interpreter_read (parts_model parts.now) }
{
    let bytes = interpreter(parts.file, &parts.segments, &parts.sections)?;
    Some(ByteString::borrowed(bytes))
}

// The rules on versions and on where the program header table stands.
#[tactic(auto, unfolding(elf_format::specs::Rules::checked))]
fn check_last(
    alloc: Global,
    parts: &Headers<'_>,
    defined: &Walk<RawDefinition>,
    needed: &Walk<RawNeeds>,
) -> Result<(), ElfFault>
    requires defined { AreDefinitions (parts_model parts.now) defined.now }
    requires needed { AreNeeds (parts_model parts.now) needed.now }
    ensures { Passes (parts_model parts.now) result (checked last_rules (parts_model parts.now)) }
{
    if !are_versions_right(alloc, parts, defined, needed)? {
        return Err(ElfFault::Disagree(11));
    }
    if !header_table_loaded(parts) {
        return Err(ElfFault::Disagree(12));
    }
    Ok(())
}

// The file's image in its parts, or that a text isn't there.
fn image_or_fault<'data>(
    alloc: Global,
    parts: &Headers<'data>,
    raw: &[EntryNumbers],
    kinds: &[SectionData],
    defined: &Walk<RawDefinition>,
    needed: &Walk<RawNeeds>,
    known: Option<&SymbolLists<'data>>,
) -> Result<Gathered<'data>, ElfFault>
    requires kinds { kinds.now ≡ map (data_of (parts_model parts.now)) parts.now.sections.items }
    requires raw { raw.now ≡ entries_of (parts_model parts.now) }
    requires defined { AreDefinitions (parts_model parts.now) defined.now }
    requires needed { AreNeeds (parts_model parts.now) needed.now }
    requires known { IfSome known (λ lists. AreSymbolsRead (parts_model parts.now) lists.now) }
    ensures image { Reads (image_gathered (parts_model parts.now)) result
        (there_or BadText (image_by_groups (parts_model parts.now))) }
    ensures lists { IfOk result (λ made. AreSymbolsRead (parts_model parts.now) made.named.lists) }
{
    match image(alloc, parts, raw, kinds, defined, needed, known) {
        Ok(image) => Ok(image),
        Err(ViewFault::Absent) => Err(ElfFault::BadText),
        Err(ViewFault::Memory) => Err(ElfFault::Memory),
    }
}

// What the bytes of each section are, where the rules on links hold; else the first fault.
fn linked_kinds(
    alloc: Global,
    parts: &Headers<'_>,
    raw: &[EntryNumbers],
) -> Result<Vec<SectionData>, ElfFault>
    requires { raw.now ≡ entries_of (parts_model parts.now) }
    ensures { LinksRead (parts_model parts.now) result }
{
    let checked = check_relocations(alloc, parts)?;
    check_links(are_tables_linked(parts, &checked), parts, raw)?;
    Ok(kinds(alloc, parts, &checked)?)
}

// The file's image in its parts, where its texts are there and the last rules hold, by the records of versions.
fn image_with_versions<'data>(
    alloc: Global,
    parts: &Headers<'data>,
    raw: &[EntryNumbers],
    kinds: &[SectionData],
    defined: &Walk<RawDefinition>,
    needed: &Walk<RawNeeds>,
    known: Option<&SymbolLists<'data>>,
) -> Result<Gathered<'data>, ElfFault>
    requires kinds { kinds.now ≡ map (data_of (parts_model parts.now)) parts.now.sections.items }
    requires raw { raw.now ≡ entries_of (parts_model parts.now) }
    requires defined { AreDefinitions (parts_model parts.now) defined.now }
    requires needed { AreNeeds (parts_model parts.now) needed.now }
    requires known { IfSome known (λ lists. AreSymbolsRead (parts_model parts.now) lists.now) }
    ensures image { TextsRead (image_gathered (parts_model parts.now)) (parts_model parts.now)
        result }
    ensures lists { IfOk result (λ made. AreSymbolsRead (parts_model parts.now) made.named.lists) }
{
    let image = image_or_fault(alloc, parts, raw, kinds, defined, needed, known)?;
    check_last(alloc, parts, defined, needed)?;
    Ok(image)
}

// The file's image in its parts, where its texts are there and the last rules hold.
fn image_and_last<'data>(
    alloc: Global,
    parts: &Headers<'data>,
    raw: &[EntryNumbers],
    kinds: &[SectionData],
    known: Option<&SymbolLists<'data>>,
) -> Result<Gathered<'data>, ElfFault>
    requires kinds { kinds.now ≡ map (data_of (parts_model parts.now)) parts.now.sections.items }
    requires raw { raw.now ≡ entries_of (parts_model parts.now) }
    requires known { IfSome known (λ lists. AreSymbolsRead (parts_model parts.now) lists.now) }
    ensures image { TextsRead (image_gathered (parts_model parts.now)) (parts_model parts.now)
        result }
    ensures lists { IfOk result (λ made. AreSymbolsRead (parts_model parts.now) made.named.lists) }
{
    let defined = walk_definitions(alloc, parts)?;
    let needed = walk_needs(alloc, parts)?;
    image_with_versions(alloc, parts, raw, kinds, &defined, &needed, known)
}

// The image of the file that has these header tables, in its parts, or the fault of the first rule behind those on the
// header tables that doesn't hold.
fn image_of_parts<'data>(
    alloc: Global,
    parts: &Headers<'data>,
    known: Option<&SymbolLists<'data>>,
) -> Result<Gathered<'data>, ElfFault>
    requires { IfSome known (λ lists. AreSymbolsRead (parts_model parts.now) lists.now) }
    ensures image { ImageRead (image_gathered (parts_model parts.now)) (parts_model parts.now)
        result }
    ensures lists { IfOk result (λ made. AreSymbolsRead (parts_model parts.now) made.named.lists) }
{
    check_placement(alloc, parts)?;
    let raw = raw_entries(alloc, parts)?;
    let kinds = linked_kinds(alloc, parts, &raw)?;
    image_and_last(alloc, parts, &raw, &kinds, known)
}

// The image that has these parts, with room for edits of its symbols.
fn builder<'data>(
    parts: &Headers<'data>,
    gathered: Gathered<'data>,
    lists: EditedLists<'data>,
) -> Builder<'data>
    requires edited { IsEdited (image_gathered (parts_model parts.now) gathered) }
    requires known { AreSymbolsOfFile parts.now.file.now gathered.named.lists }
    requires lists { lists ≡ edits_of_none gathered.named.lists }
    ensures { result ≡ image_gathered (parts_model parts.now) gathered.entry }
{
    Builder {
        source: parts.file,
        changed: false,
        form: parts.form,
        header: Header::of(parts.header),
        segments: gathered.segments,
        sections: gathered.named.sections,
        lists,
        versions: gathered.listed.versions,
        dynamic: gathered.listed.dynamic,
        interpreter: gathered.interpreter,
        section_numbers: gathered.section_numbers,
        page_size: None,
        moves_dynamic: false,
    }
}

// The image of a file, or the fault of the first read rule that doesn't hold. Its symbols may be known.
fn image_of_file<'data>(
    alloc: Global,
    bytes: &'data [u8],
    known: Option<&SymbolLists<'data>>,
) -> Result<Builder<'data>, ElfFault>
    requires { IfSome known (λ lists. AreSymbolsOfFile bytes.now lists.now) }
    ensures { MatchResult result
        (λ b. image_of bytes.entry.now ≡ Ok b)
        (λ e. e ≢ ElfFault.Memory → image_of bytes.entry.now ≡ Err e) }
{
    let parts = read_headers(alloc, bytes)?;
    let gathered = image_of_parts(alloc, &parts, known)?;
    let lists = EditedLists::new(alloc, &gathered.named.lists)?;
    Ok(builder(&parts, gathered, lists))
}

impl<'data> Builder<'data> {
    /// Reads a file: its image where every read rule holds, else the fault of the first rule that doesn't (see
    /// the read rules in docs/FORMATS-ELF.md for their order); `Memory` only where a growth was refused.
    pub fn read(alloc: Global, bytes: &'data [u8]) -> Result<Builder<'data>, ElfFault>
        ensures { MatchResult result
            (λ b. image_of bytes.entry.now ≡ Ok b)
            (λ e. e ≢ ElfFault.Memory → image_of bytes.entry.now ≡ Err e) }
    {
        image_of_file(alloc, bytes, None)
    }

    /// The image as its source was read, before any edit. Its symbols are shared with this image, so that none is
    /// read again. Error: `AllocError`.
    pub fn read_source(&self, alloc: Global) -> Result<Builder<'data>, AllocError>
        ensures { IfOk result (λ read. image_of self.now.source ≡ Ok read) }
    {
        let lists = self.lists.read();
        match image_of_file(alloc, self.source, Some(&lists)) {
            Ok(read) => Ok(read),
            Err(ElfFault::Memory) => Err(AllocError),
            Err(_) => unreachable!(),
        }
    }
}
