//! Who uses the texts of string tables, and which texts.
use crate::links::{Links, links_of};
use crate::other_texts::{Others, have_same_counts, is_known_copied};
use crate::texts::Texts;
use crate::versions::{grown, needs_size};
use elf_layout_plan::format_constants::{
    SHT_DYNAMIC, SHT_DYNSYM, SHT_GNU_VERDEF, SHT_GNU_VERNEED, SHT_SYMTAB,
};
use elf_layout_plan::{Builder, Section, StayingNeeds, is_numbered};
use std::alloc::{AllocError, Global};
use std::marker::Model;

// An edited image with the image that was read from the same bytes, and what is known of the users of its texts.
#[derive(Drop)]
pub(crate) struct Users<'a, 'data> {
    read: &'a Builder<'data>,
    image: &'a Builder<'data>,
    links: Links,
    staying: StayingNeeds,
    // The names of the dynamic symbols, one by one, aren't those that were read.
    are_names_changed: bool,
    keeps_static_symbols: bool,
}

impl<'a, 'data> Model for Users<'a, 'data> {
    ghost use Rattle.elf_layout_sizes.specs.Inner.{Edit};
    ghost use Rattle.elf_layout_sizes.specs.UsersModel.{AreUsers, users_model};

    ghost Value = { Edit };

    ghost view = { users_model };

    ghost invariant = { AreUsers };
}

impl<'a, 'data> Users<'a, 'data> {
    ghost use Rattle.std.specs.Prelude.{◌≡◌, ◌<◌, ◌^◌, ◌++◌, length, IfOk, IfSome, IsTrue, OnOk, SomeIff};
    ghost use Rattle.elf_format.specs.Options.{list_at};
    ghost use Rattle.elf_image.specs.ImageModel.{section_model};
    ghost use Rattle.elf_image.specs.Kept.{dynamic_strings_number, image_at_read};
    ghost use Rattle.elf_layout_plan.specs.Sizes.{dynamic_size as size_of_dynamic, needs_size as size_of_needs};
    ghost use Rattle.elf_layout_plan.specs.Strings.{HoldNoNul};
    ghost use Rattle.elf_layout_plan.specs.Needs.{written_entries, written_needs};
    ghost use Rattle.elf_layout_sizes.specs.OtherTexts.{HasDynamicNamesOf, HasNamesOf, HasOtherDynamicNames, HasStaticNamesOf, others_in_use};
    ghost use Rattle.elf_layout_plan.specs.Texts.{are_names_changed as have_names_changed, if_linked, if_names, is_table_copied, texts_in_use, texts_of_definitions, texts_of_entries, texts_of_needs, texts_of_symbols};

    // What is known of the users of an edited image's texts.
    pub(crate) fn new(
        alloc: Global,
        read: &'a Builder<'data>,
        image: &'a Builder<'data>,
    ) -> Result<Self, AllocError>
        requires { read.now ≡ image_at_read image.now }
        ensures { IfOk result (λ users. users
            ≡ record { read = read.entry.now; image = image.entry.now }) }
    {
        // the image was read from its source
        let _source = image.source();
        let staying = StayingNeeds::new(alloc, read, image)?;
        Ok(Users {
            read,
            image,
            links: links_of(image),
            staying,
            are_names_changed: !image.keeps_dynamic_names(),
            keeps_static_symbols: image.keeps_static_symbols(),
        })
    }

    // The users of string tables of the image that was read. Takes no memory.
    pub(crate) fn of_read(alloc: Global, read: &'a Builder<'data>) -> Self
        ensures { result ≡ record { read = read.entry.now; image = read.entry.now } }
    {
        Users {
            read,
            image: read,
            links: links_of(read),
            staying: StayingNeeds::all(alloc),
            are_names_changed: false,
            keeps_static_symbols: true,
        }
    }

    // The image that was read. Takes no memory.
    pub(crate) fn read(&self) -> &'a Builder<'data>
        ensures { result.now ≡ self.now.read }
    {
        self.read
    }

    // The edited image. Takes no memory.
    pub(crate) fn image(&self) -> &'a Builder<'data>
        ensures { result.now ≡ self.now.image }
    {
        self.image
    }

    // Whether the names of the dynamic symbols, one by one, aren't those that were read.
    pub(crate) fn are_names_changed(&self) -> bool
        ensures { result ≡ have_names_changed self.now.read self.now.image }
    {
        self.are_names_changed
    }

    // The number of the dynamic strings.
    pub(crate) fn strings_link(&self) -> Option<usize>
        ensures { result ≡ dynamic_strings_number self.now.image }
    {
        match self.links.dynamic {
            Some(number) => Some(number),
            None => self.links.dynamic_symbols,
        }
    }

    // How many entries the dynamic list has that is written.
    fn count_entries(&self) -> usize
        ensures { result
            ≡ length (list_at (λ es. es) (written_entries self.now.read self.now.image)) }
    {
        match self.image.dynamic_data() {
            Some(entries) => self.staying.count_entries(entries),
            None => 0,
        }
    }

    // The size of the dynamic section (gABI, Dynamic Section). `None` where it is past 64 bits.
    pub(crate) fn dynamic_size(&self, section: &Section<'_>) -> Option<u64>
        ensures { let size = size_of_dynamic self.now.read self.now.image
            (section_model section.now) in
            SomeIff result (size < 2 ^ 64) size }
    {
        let entry = self.image.form().entry_size() as u64;
        let size = grown(entry, 0, entry, self.count_entries())?;
        Some(section.sh_size.max(size))
    }

    // The size of the table of needed versions that is written. `None` where it is past 64 bits.
    pub(crate) fn needs_size(&self) -> Option<u64>
        ensures { let size = size_of_needs (written_needs self.now.read self.now.image) in
            SomeIff result (size < 2 ^ 64) size }
    {
        needs_size(&self.image.versions().needs, &self.staying)
    }

    // Adds the texts of the dynamic list, where they stand in the string table with that number.
    fn push_dynamic(&self, texts: &mut Texts<'a>, number: usize) -> Result<(), AllocError>
        ensures { OnOk result (texts.new ≡ texts.old ++ if_linked self.now.image SHT_DYNAMIC number
            (list_at texts_of_entries (written_entries self.now.read self.now.image))) }
    {
        if !is_numbered(self.links.dynamic, number) {
            return Ok(());
        }
        match self.image.dynamic_data() {
            Some(entries) => texts.push_entries(entries, &self.staying),
            None => Ok(()),
        }
    }

    // Adds the names of the dynamic symbols, where they stand in the string table with that number.
    fn push_dynamic_symbols(&self, texts: &mut Texts<'a>, number: usize) -> Result<(), AllocError>
        ensures { OnOk result (texts.new ≡ texts.old ++ if_linked self.now.image SHT_DYNSYM number
            (texts_of_symbols self.now.image.dynamic_symbols)) }
    {
        if !is_numbered(self.links.dynamic_symbols, number) {
            return Ok(());
        }
        texts.push_symbols(self.image.dynamic_symbols())
    }

    // Adds the names of the defined versions, where they stand in the string table with that
    // number.
    fn push_definitions(&self, texts: &mut Texts<'a>, number: usize) -> Result<(), AllocError>
        ensures { OnOk result (texts.new ≡ texts.old ++ if_linked self.now.image SHT_GNU_VERDEF
            number (texts_of_definitions self.now.image.definitions)) }
    {
        if !is_numbered(self.links.definitions, number) {
            return Ok(());
        }
        texts.push_definitions(self.image.versions().definitions.as_slice())
    }

    // Adds the texts of the needed versions that are written, where they stand in the string table
    // with that number.
    fn push_needs(&self, texts: &mut Texts<'a>, number: usize) -> Result<(), AllocError>
        ensures { OnOk result (texts.new ≡ texts.old ++ if_linked self.now.image SHT_GNU_VERNEED
            number (texts_of_needs (written_needs self.now.read self.now.image))) }
    {
        if !is_numbered(self.links.needs, number) {
            return Ok(());
        }
        texts.push_needs(self.image.versions().needs.as_slice(), &self.staying)
    }

    // Adds the names of the symbols for a link editor, where they stand in the string table with
    // that number.
    fn push_symbols(&self, texts: &mut Texts<'a>, number: usize) -> Result<(), AllocError>
        ensures { OnOk result (texts.new ≡ texts.old ++ if_linked self.now.image SHT_SYMTAB number
            (texts_of_symbols self.now.image.symbols)) }
    {
        if !is_numbered(self.links.symbols, number) {
            return Ok(());
        }
        texts.push_symbols(self.image.symbols())
    }

    // Adds the names of the sections, where they stand in the string table with that number.
    fn push_sections(&self, texts: &mut Texts<'a>, number: usize) -> Result<(), AllocError>
        ensures { OnOk result (texts.new ≡ texts.old ++ if_names self.now.image number) }
    {
        if self.image.header().e_shstrndx as usize != number {
            return Ok(());
        }
        texts.push_sections(self.image.sections())
    }

    // Adds the texts of all users.
    fn push_all(&self, texts: &mut Texts<'a>, number: usize) -> Result<(), AllocError>
        ensures { OnOk result (texts.new
            ≡ texts.old ++ texts_in_use self.now.read self.now.image number) }
    {
        self.push_dynamic(texts, number)?;
        self.push_dynamic_symbols(texts, number)?;
        self.push_definitions(texts, number)?;
        self.push_needs(texts, number)?;
        self.push_symbols(texts, number)?;
        self.push_sections(texts, number)?;
        Ok(())
    }

    // The texts of the dynamic list that the image uses of that string table.
    fn list_texts(&self, alloc: Global, number: usize) -> Result<Texts<'a>, AllocError>
        ensures { IfOk result (λ texts. texts ≡ (others_in_use self.now number).list) }
    {
        let mut texts = Texts::new(alloc);
        self.push_dynamic(&mut texts, number)?;
        Ok(texts)
    }

    // The texts of versions that the image uses of that string table.
    fn version_texts(&self, alloc: Global, number: usize) -> Result<Texts<'a>, AllocError>
        ensures { IfOk result (λ texts. texts ≡ (others_in_use self.now number).versions) }
    {
        let mut texts = Texts::new(alloc);
        self.push_definitions(&mut texts, number)?;
        self.push_needs(&mut texts, number)?;
        Ok(texts)
    }

    // The names of sections that the image uses of that string table.
    fn section_texts(&self, alloc: Global, number: usize) -> Result<Texts<'a>, AllocError>
        ensures { IfOk result (λ texts. texts ≡ (others_in_use self.now number).sections) }
    {
        let mut texts = Texts::new(alloc);
        self.push_sections(&mut texts, number)?;
        Ok(texts)
    }

    // The texts that the image uses of that string table, but for the names of symbols.
    fn others_in_use(&self, alloc: Global, number: usize) -> Result<Others<'a>, AllocError>
        ensures { IfOk result (λ others. others ≡ others_in_use self.now number) }
    {
        let list = self.list_texts(alloc, number)?;
        let versions = self.version_texts(alloc, number)?;
        let sections = self.section_texts(alloc, number)?;
        Ok(Others {
            list,
            versions,
            sections,
        })
    }

    // Whether the names of dynamic symbols in that string table are known to be those that stood there at read.
    fn keeps_dynamic_names(&self, read_users: &Users<'_, '_>, number: usize) -> bool
        requires { read_users.now ≡ record { read = self.now.read; image = self.now.read } }
        ensures { IsTrue result → HasDynamicNamesOf self.now.read self.now.image number }
    {
        let is_linked = is_numbered(self.links.dynamic_symbols, number);
        if is_linked != is_numbered(read_users.links.dynamic_symbols, number) {
            return false;
        }
        !is_linked || !self.are_names_changed
    }

    // Whether the names of symbols for a link editor in that string table are known to be those
    // that stood there at read.
    fn keeps_static_names(&self, read_users: &Users<'_, '_>, number: usize) -> bool
        requires { read_users.now ≡ record { read = self.now.read; image = self.now.read } }
        ensures { IsTrue result → HasStaticNamesOf self.now.read self.now.image number }
    {
        let is_linked = is_numbered(self.links.symbols, number);
        if is_linked != is_numbered(read_users.links.symbols, number) {
            return false;
        }
        !is_linked || self.keeps_static_symbols
    }

    // Whether the names of symbols in that string table are known to be those that stood there at read.
    fn keeps_names(&self, read_users: &Users<'_, '_>, number: usize) -> bool
        requires { read_users.now ≡ record { read = self.now.read; image = self.now.read } }
        ensures { IsTrue result → HasNamesOf self.now.read self.now.image number }
    {
        self.keeps_dynamic_names(read_users, number) && self.keeps_static_names(read_users, number)
    }

    // Whether as many names of dynamic symbols are known to stand in that string table as at read, and other ones.
    fn has_other_dynamic_names(&self, read_users: &Users<'_, '_>, number: usize) -> bool
        requires { read_users.now ≡ record { read = self.now.read; image = self.now.read } }
        ensures { IsTrue result → HasOtherDynamicNames self.now.read self.now.image number }
    {
        if !is_numbered(self.links.dynamic_symbols, number) {
            return false;
        }
        if !is_numbered(read_users.links.dynamic_symbols, number) {
            return false;
        }
        self.are_names_changed
            && self.image.dynamic_symbols().len() == self.read.dynamic_symbols().len()
    }

    // Whether that string table is copied, where names of dynamic symbols may have changed and it can be told without a look
    // at them: it isn't, where there are as many texts of each kind and some of the names are others.
    fn is_copied_by_counts(
        &self,
        read_users: &Users<'_, '_>,
        number: usize,
        now: &Others<'_>,
        at_read: &Others<'_>,
    ) -> Option<bool>
        requires users { read_users.now ≡ record { read = self.now.read; image = self.now.read } }
        requires now { now.now ≡ others_in_use self.now number }
        requires at_read { at_read.now ≡ others_in_use read_users.now number }
        ensures { IfSome result (λ is. is ≡ is_table_copied self.now.read self.now.image number) }
    {
        if self.keeps_static_names(read_users, number)
            && self.has_other_dynamic_names(read_users, number)
            && have_same_counts(now, at_read)
        {
            Some(false)
        } else {
            None
        }
    }

    // Whether that string table is copied, where it can be told by its other texts and those at read.
    fn is_copied_by(
        &self,
        read_users: &Users<'_, '_>,
        number: usize,
        now: &Others<'_>,
        at_read: &Others<'_>,
    ) -> Option<bool>
        requires users { read_users.now ≡ record { read = self.now.read; image = self.now.read } }
        requires now { now.now ≡ others_in_use self.now number }
        requires at_read { at_read.now ≡ others_in_use read_users.now number }
        ensures { IfSome result (λ is. is ≡ is_table_copied self.now.read self.now.image number) }
    {
        if !self.keeps_names(read_users, number) {
            return self.is_copied_by_counts(read_users, number, now, at_read);
        }
        is_known_copied(now, at_read)
    }

    // Whether that string table is copied, by its other texts, with a look at those at read.
    fn is_copied_with(
        &self,
        alloc: Global,
        read_users: &Users<'_, '_>,
        number: usize,
        now: &Others<'_>,
    ) -> Result<Option<bool>, AllocError>
        requires users { read_users.now ≡ record { read = self.now.read; image = self.now.read } }
        requires now { now.now ≡ others_in_use self.now number }
        ensures { IfOk result (λ told. IfSome told (λ is.
            is ≡ is_table_copied self.now.read self.now.image number)) }
    {
        let at_read = read_users.others_in_use(alloc, number)?;
        Ok(self.is_copied_by(read_users, number, now, &at_read))
    }

    // Whether that string table is copied, where it can be told without a look at the names of symbols.
    pub(crate) fn is_copied_by_others(
        &self,
        alloc: Global,
        read_users: &Users<'_, '_>,
        number: usize,
    ) -> Result<Option<bool>, AllocError>
        requires { read_users.now ≡ record { read = self.now.read; image = self.now.read } }
        ensures { IfOk result (λ told. IfSome told (λ is.
            is ≡ is_table_copied self.now.read self.now.image number)) }
    {
        let now = self.others_in_use(alloc, number)?;
        self.is_copied_with(alloc, read_users, number, &now)
    }

    // The texts that the image uses of the string table with that number.
    pub(crate) fn texts(&self, alloc: Global, number: usize) -> Result<Texts<'a>, AllocError>
        ensures all { IfOk result (λ texts. texts
            ≡ texts_in_use self.now.read self.now.image number) }
        ensures whole { HoldNoNul (texts_in_use self.now.read self.now.image number) }
    {
        // no text of an image has a NUL
        let _source = self.image.source();
        let mut texts = Texts::new(alloc);
        self.push_all(&mut texts, number)?;
        Ok(texts)
    }
}
