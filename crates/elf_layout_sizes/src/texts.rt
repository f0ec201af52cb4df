//! The texts that stand in a string table, as they are gathered.
use elf_layout_plan::{
    Dynamic, Finished, Section, StayingNeeds, StringTable, SymbolsNow, TableFault, VersionDef,
    VersionNeed, VersionNeedName,
};
use patch_bytes::ByteString;
use std::alloc::{AllocError, Global};
use std::marker::Model;

// Texts in the order of their users, of which a string table can be made. A text that two use stands there twice.
#[derive(Drop)]
pub(crate) struct Texts<'t> {
    list: StringTable<'t>,
}

impl<'t> Model for Texts<'t> {
    ghost use Rattle.std.specs.Prelude.{List, ℕ};

    ghost Value = { List (List ℕ) };

    ghost view = { λ s. s.list };
}

impl<'t> Texts<'t> {
    ghost use Rattle.std.specs.Prelude.{◌≡◌, ◌≤◌, ◌<◌, ◌^◌, [], ◌∷◌, ◌++◌, get_or, length, map, IfOk, MatchResult, OnOk};
    ghost use Rattle.elf_layout_plan.specs.TableFault.TheVariants.{NumberTooLarge};
    ghost use Rattle.elf_layout_plan.specs.Strings.{HoldNoNul, IsTableOf, PlacesStand, table_length};
    ghost use Rattle.patch_bytes.specs.ByteString.{bytes_of_each};
    ghost use Rattle.elf_image.specs.ImageModel.{definition_model, entry_model, name_model, needs_model, section_model};
    ghost use Rattle.elf_layout_plan.specs.Texts.{texts_of_definitions, texts_of_entries, texts_of_entry, texts_of_needs, texts_of_symbols};
    ghost use Rattle.elf_image_symbols.specs.Loan.{symbols_now};
    ghost use Rattle.elf_layout_plan.specs.Staying.{staying_entries, unmarked_names, unmarked_needs, with_unmarked_names};

    // No text. Takes no memory.
    pub(crate) fn new(alloc: Global) -> Self
        ensures { result ≡ [] }
    {
        Texts {
            list: StringTable::new(alloc),
        }
    }

    // How many texts there are. Takes no memory.
    pub(crate) fn len(&self) -> usize
        ensures { result ≡ length self.now }
    {
        self.list.len()
    }

    // The text at a place among them. Takes no memory.
    pub(crate) fn text(&self, i: usize) -> &'t [u8]
        requires { i < length self.now }
        ensures { result.now ≡ get_or self.now i [] }
    {
        self.list.text(i)
    }

    // The string table of these texts (gABI, String Table). `NumberTooLarge` where it is longer than 2 to the 32 bytes.
    pub(crate) fn finish(self, alloc: Global) -> Result<Finished<'t>, TableFault>
        requires { HoldNoNul self }
        ensures table { MatchResult result
            (λ table. IsTableOf self.entry table × (table_length self.entry ≤ 2 ^ 32))
            (λ fault. fault ≡ NumberTooLarge → 2 ^ 32 < table_length self.entry) }
        ensures stands { IfOk result PlacesStand }
    {
        self.list.finish(alloc)
    }

    // Adds a text.
    fn push(&mut self, text: &'t [u8]) -> Result<(), AllocError>
        ensures { OnOk result (self.new ≡ self.old ++ text.entry.now ∷ []) }
    {
        self.list.add(text)
    }

    // Adds the names of symbols.
    pub(crate) fn push_symbols(&mut self, symbols: SymbolsNow<'t>) -> Result<(), AllocError>
        ensures { OnOk result
            (self.new ≡ self.old ++ texts_of_symbols (symbols_now symbols.entry)) }
    {
        self.list.reserve(symbols.len())?;
        for i in 0..symbols.len() {
            self.push(symbols.name(i))?;
        }
        Ok(())
    }

    // Adds the names of sections.
    pub(crate) fn push_sections(&mut self, sections: &'t [Section<'_>]) -> Result<(), AllocError>
        ensures { OnOk result (self.new
            ≡ self.old ++ map (λ s. s.name) (map section_model sections.entry.now)) }
    {
        for section in sections {
            self.push(section.name.as_slice())?;
        }
        Ok(())
    }

    // Adds the texts that an entry of the dynamic list has.
    fn push_entry(&mut self, entry: &'t Dynamic<'_>) -> Result<(), AllocError>
        ensures { OnOk result
            (self.new ≡ self.old ++ texts_of_entry (entry_model entry.entry.now)) }
    {
        match entry {
            Dynamic::Text { val, .. } => self.push(val.as_slice()),
            _ => Ok(()),
        }
    }

    // Adds the texts of a dynamic list, of the entries that stay.
    pub(crate) fn push_entries(
        &mut self,
        entries: &'t [Dynamic<'_>],
        staying: &StayingNeeds,
    ) -> Result<(), AllocError>
        ensures { OnOk result (self.new ≡ self.old ++ texts_of_entries
            (staying_entries staying.now.are_gone (map entry_model entries.entry.now))) }
    {
        for entry in entries {
            if staying.does_entry_stay(entry) {
                self.push_entry(entry)?;
            }
        }
        Ok(())
    }

    // Adds texts.
    fn push_all(&mut self, texts: &'t [ByteString<'_>]) -> Result<(), AllocError>
        ensures { OnOk result (self.new ≡ self.old ++ bytes_of_each texts.entry.now) }
    {
        for text in texts {
            self.push(text.as_slice())?;
        }
        Ok(())
    }

    // Adds the names of defined versions.
    pub(crate) fn push_definitions(
        &mut self,
        definitions: &'t [VersionDef<'_>],
    ) -> Result<(), AllocError>
        ensures { OnOk result (self.new
            ≡ self.old ++ texts_of_definitions (map definition_model definitions.entry.now)) }
    {
        for definition in definitions {
            self.push_all(definition.names.as_slice())?;
        }
        Ok(())
    }

    // Adds the names of needed versions that stay.
    fn push_names(
        &mut self,
        names: &'t [VersionNeedName<'_>],
        staying: &StayingNeeds,
    ) -> Result<(), AllocError>
        ensures { OnOk result (self.new ≡ self.old
            ++ map (λ v. v.name)
            (unmarked_names staying.now.marks (map name_model names.entry.now))) }
    {
        for name in names {
            if staying.does_version_stay(name.index) {
                self.push(name.name.as_slice())?;
            }
        }
        Ok(())
    }

    // Adds the texts of a library's record that stays.
    fn push_need(
        &mut self,
        need: &'t VersionNeed<'_>,
        staying: &StayingNeeds,
    ) -> Result<(), AllocError>
        ensures { OnOk result (self.new ≡ self.old ++ texts_of_needs
            (with_unmarked_names staying.now.marks (needs_model need.entry.now) ∷ [])) }
    {
        self.push(need.file.as_slice())?;
        self.push_names(need.versions.as_slice(), staying)
    }

    // Adds the texts of needed versions that stay.
    pub(crate) fn push_needs(
        &mut self,
        needs: &'t [VersionNeed<'_>],
        staying: &StayingNeeds,
    ) -> Result<(), AllocError>
        ensures { OnOk result (self.new ≡ self.old ++ texts_of_needs
            (unmarked_needs staying.now.marks (map needs_model needs.entry.now))) }
    {
        for need in needs {
            if staying.does_need_stay(need) {
                self.push_need(need, staying)?;
            }
        }
        Ok(())
    }
}
