//! How large a section is to be, by its kind.
ghost use Rattle.std.specs.Prelude.{◌≡◌, ℕ, ◌<◌, ◌^◌, false, true, Some, MatchResult, SomeIff};
ghost use Rattle.elf_image.specs.ImageModel.{section_model};
ghost use Rattle.elf_layout_sizes.specs.Inner.{fits_class};
ghost use Rattle.elf_layout_plan.specs.TableFault.TheVariants.{NumberTooLarge};

use crate::known::{Known, known_strings};
use crate::strings::made_for;
use crate::tables::{gabi_size, gnu_size};
use crate::users::Users;
use crate::versions::{definitions_size, grown};
use elf_layout_plan::format_constants::{
    SHT_DYNAMIC, SHT_DYNSYM, SHT_GNU_HASH, SHT_GNU_VERDEF, SHT_GNU_VERNEED, SHT_GNU_VERSYM,
    SHT_HASH, SHT_STRTAB, SHT_SYMTAB,
};
use elf_layout_plan::{Builder, Finished, Section, TableFault, is_numbered};
use patch_bytes::Wide;
use std::alloc::{AllocError, Global};
use std::marker::Model;

// A size that fits its field (gABI, Data Representation). `NumberTooLarge` where it doesn't.
fn fitted(wide: Wide, size: Option<u64>) -> Result<u64, TableFault>
    ensures { MatchResult result
        (λ fitted. (size ≡ Some fitted) × (fits_class wide fitted ≡ true))
        (λ fault. (n : ℕ) → SomeIff size (n < 2 ^ 64) n → fits_class wide n ≡ false) }
{
    let Some(size) = size else {
        return Err(TableFault::NumberTooLarge);
    };
    match wide {
        Wide::W32 if size >= 0x1_0000_0000 => Err(TableFault::NumberTooLarge),
        _ => Ok(size),
    }
}

// An edited image with what is computed of it once.
#[derive(Drop)]
pub(crate) struct Sizing<'a, 'data> {
    users: Users<'a, 'data>,
    read_users: Users<'a, 'data>,
    interpreter: Option<usize>,
    strings: Option<Known<'a>>,
}

impl<'a, 'data> Model for Sizing<'a, 'data> {
    ghost use Rattle.elf_layout_sizes.specs.Inner.{Edit};
    ghost use Rattle.elf_layout_sizes.specs.SizingModel.{IsSizing, sizing_model};

    ghost Value = { Edit };

    ghost view = { sizing_model };

    ghost invariant = { IsSizing };
}

impl<'a, 'data> Sizing<'a, 'data> {
    ghost use Rattle.std.specs.Prelude.{◌≡◌, ◌==◌, ◌<◌, ◌*◌, ◌^◌, ◌||◌, false, true, nat_le, IfOk, IfSome, IsTrue, MatchResult, SomeIff};
    ghost use Rattle.elf_image.specs.Kept.{image_at_read};
    ghost use Rattle.elf_format.specs.Records.{symbol_size};
    ghost use Rattle.elf_layout_plan.specs.Sizes.{hash_size, interpreter_size};
    ghost use Rattle.elf_layout_plan.specs.Texts.{is_table_copied};
    ghost use Rattle.elf_layout_sizes.specs.MadeTables.{IsMadeOfDynamic};
    ghost use Rattle.elf_layout_sizes.specs.Inner.{do_all_fit, do_strings_fit, does_size_fit, lists_size, size_by, sizes_by, strings_length};

    // What is computed once of an edited image.
    pub(crate) fn new(
        alloc: Global,
        read: &'a Builder<'data>,
        image: &'a Builder<'data>,
    ) -> Result<Self, AllocError>
        requires { read.now ≡ image_at_read image.now }
        ensures { IfOk result (λ sizing. sizing
            ≡ record { read = read.entry.now; image = image.entry.now }) }
    {
        let users = Users::new(alloc, read, image)?;
        let read_users = Users::of_read(alloc, read);
        let strings = known_strings(alloc, &users, &read_users)?;
        Ok(Sizing {
            users,
            read_users,
            interpreter: read.interpreter_number(),
            strings,
        })
    }

    // The table of the dynamic strings, where it was made anew.
    pub(crate) fn into_strings(self) -> Option<Finished<'a>>
        ensures { IfSome result (IsMadeOfDynamic self.entry.read self.entry.image) }
    {
        let strings = self.strings;
        match strings {
            Some(known) => known.made,
            None => None,
        }
    }

    // The size of the string table that had that number and this size at read, where it is that of the dynamic
    // strings and known.
    fn known_size(&self, number: usize, old: u64) -> Option<u64>
        ensures { let size = strings_length self.now.read self.now.image number old in
            IfSome result (λ length. (length ≡ size)
            × ((is_table_copied self.now.read self.now.image number
            || nat_le size (2 ^ 32)) ≡ true)) }
    {
        match &self.strings {
            Some(known) if known.number == number => Some(known.size(old)),
            _ => None,
        }
    }

    // The size of a string table that had that number. `NumberTooLarge` where it is made anew and longer than 2 to the
    // 32 bytes.
    fn strings_size(&self, alloc: Global, number: usize, old: u64) -> Result<u64, TableFault>
        ensures { let copied = is_table_copied self.now.read self.now.image number in
            let size = strings_length self.now.read self.now.image number old in
            MatchResult result
            (λ length. (length ≡ size) × ((copied || nat_le size (2 ^ 32)) ≡ true))
            (λ fault. fault ≡ NumberTooLarge → (copied || nat_le size (2 ^ 32)) ≡ false) }
    {
        if let Some(size) = self.known_size(number, old) {
            return Ok(size);
        }
        let made = made_for(alloc, &self.users, &self.read_users, number)?;
        match made {
            Some(table) => Ok(table.bytes().len() as u64),
            None => Ok(old),
        }
    }

    // The size of a table of so many symbols (gABI, Symbol Table). `None` where it is past 64 bits.
    fn symbols_size(&self, count: usize) -> Option<u64>
        ensures { let size = count * symbol_size self.now.image.form in
            SomeIff result (size < 2 ^ 64) size }
    {
        grown(0, 0, self.users.image().form().symbol_size() as u64, count)
    }

    // The size of a hash table. `None` where it is past 64 bits.
    fn hash_size(&self, section: &Section<'_>) -> Option<u64>
        ensures { let size = hash_size self.now.read self.now.image (section_model section.now) in
            SomeIff result (size < 2 ^ 64) size }
    {
        let old = section.sh_size;
        if !self.users.are_names_changed() {
            return Some(old);
        }
        let symbols = self.users.image().dynamic_symbols();
        let form = self.users.image().form();
        if section.sh_type == SHT_HASH {
            return gabi_size(form, section.content, symbols.len());
        }
        gnu_size(form, section.content, old, symbols)
    }

    // The size of a section that is no string table. `None` where it is past 64 bits.
    fn lists_size(&self, section: &Section<'_>) -> Option<u64>
        ensures { let size = lists_size self.now.read self.now.image (section_model section.now) in
            SomeIff result (size < 2 ^ 64) size }
    {
        let (image, old) = (self.users.image(), section.sh_size);
        match section.sh_type {
            SHT_DYNAMIC => self.users.dynamic_size(section),
            SHT_SYMTAB => self.symbols_size(image.symbols().len()),
            SHT_DYNSYM => self.symbols_size(image.dynamic_symbols().len()),
            SHT_GNU_VERSYM => grown(0, 0, 2, image.dynamic_symbols().len()),
            SHT_GNU_VERDEF => definitions_size(&image.versions().definitions),
            SHT_GNU_VERNEED => self.users.needs_size(),
            SHT_HASH => self.hash_size(section),
            SHT_GNU_HASH => self.hash_size(section),
            _ => Some(old),
        }
    }

    // The size of the section with the interpreter's name.
    fn interpreter_size(&self, section: &Section<'_>) -> u64
        ensures value { result ≡ interpreter_size self.now.image (section_model section.now) }
        ensures fits { result < 2 ^ 64 }
    {
        let old = section.sh_size;
        match self.users.image().interp_data() {
            Some(bytes) => bytes.len() as u64,
            None => old,
        }
    }

    // The size of a section that had that number, where it is a string table, else 0. `NumberTooLarge` where the table is
    // made anew and longer than 2 to the 32 bytes.
    fn strings_of(
        &self,
        alloc: Global,
        section: &Section<'_>,
        number: usize,
    ) -> Result<u64, TableFault>
        ensures { let read = self.now.read in let image = self.now.image in
            let s = section_model section.now in
            MatchResult result
            (λ length. (s.sh_type ≡ SHT_STRTAB
            → length ≡ strings_length read image number s.sh_size)
            × (do_strings_fit read image number s ≡ true))
            (λ fault. fault ≡ NumberTooLarge → do_strings_fit read image number s ≡ false) }
    {
        if section.sh_type != SHT_STRTAB {
            return Ok(0);
        }
        self.strings_size(alloc, number, section.sh_size)
    }

    // The size of a section that had that number, which is this one where it is a string table. `None` where it is past
    // 64 bits.
    fn size_by_kind(&self, section: &Section<'_>, number: usize, strings: u64) -> Option<u64>
        requires { section.now.sh_type ≡ SHT_STRTAB
            → strings ≡ strings_length self.now.read self.now.image number section.now.sh_size }
        ensures { let s = section_model section.now in
            let size = size_by self.now.read self.now.image number s in
            SomeIff result (size < 2 ^ 64) size }
    {
        if is_numbered(self.interpreter, number) {
            return Some(self.interpreter_size(section));
        }
        if section.sh_type == SHT_STRTAB {
            return Some(strings);
        }
        self.lists_size(section)
    }

    // The size of a section that had that number. `NumberTooLarge` where it doesn't fit its field, or the offset of a text
    // of a table that is made anew doesn't.
    fn size_of(
        &self,
        alloc: Global,
        section: &Section<'_>,
        number: usize,
    ) -> Result<u64, TableFault>
        ensures { let read = self.now.read in let image = self.now.image in
            let s = section_model section.now in
            MatchResult result
            (λ size. (size ≡ size_by read image number s)
            × (does_size_fit read image number s ≡ true))
            (λ fault. fault ≡ NumberTooLarge → does_size_fit read image number s ≡ false) }
    {
        let strings = self.strings_of(alloc, section, number)?;
        let size = self.size_by_kind(section, number, strings);
        fitted(self.users.image().form().wide, size)
    }

    // The size of each section. `NumberTooLarge` where one doesn't fit.
    pub(crate) fn sizes(&self, alloc: Global) -> Result<Vec<u64>, TableFault>
        ensures { let read = self.now.read in let image = self.now.image in
            MatchResult result
            (λ sizes. (sizes.items ≡ sizes_by read image image.section_numbers image.sections)
            × (do_all_fit read image image.section_numbers image.sections ≡ true))
            (λ fault. fault ≡ NumberTooLarge
            → do_all_fit read image image.section_numbers image.sections ≡ false) }
    {
        let image = self.users.image();
        // the image has as many numbers of sections as sections
        let _source = image.source();
        let mut sizes = Vec::new(alloc);
        let sections = image.sections();
        for i in 0..sections.len() {
            let size = self.size_of(alloc, &sections[i], image.read_section(i))?;
            sizes.push(size)?;
        }
        Ok(sizes)
    }
}
