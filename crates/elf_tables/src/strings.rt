use crate::fault::TableFault;
use crate::finished::Finished;
use crate::keyed::Keyed;
use crate::laid::lay;
use std::alloc::{AllocError, Global};
use std::marker::Model;

/// The texts of a string table that isn't finished (gABI, String Table), in the order in which they were added.
#[derive(Drop)]
pub struct StringTable<'t> {
    texts: Vec<Keyed<'t>>,
}

impl<'t> Model for StringTable<'t> {
    ghost use Rattle.std.specs.Prelude.{List, ℕ};
    ghost use Rattle.elf_tables.specs.StringSteps.{AreInOrder, texts_in};

    ghost Value = { List (List ℕ) };

    ghost view = { λ s. texts_in s.texts.items };

    ghost invariant = { λ s. AreInOrder s.texts.items };
}

impl<'t> StringTable<'t> {
    ghost use Rattle.std.specs.Prelude.{◌≡◌, ◌≤◌, ◌<◌, ◌^◌, [], ◌∷◌, ◌++◌, get_or, length, IfOk, MatchResult, OnErr, OnOk};
    ghost use Rattle.elf_tables.specs.declared.fault.TableFault.TheVariants.{NumberTooLarge};
    ghost use Rattle.elf_tables.specs.Strings.{HoldNoNul, IsTableOf, PlacesStand, table_length};

    /// No text. Takes no memory.
    pub fn new(alloc: Global) -> Self
        ensures { result ≡ [] }
    {
        StringTable {
            texts: Vec::new(alloc),
        }
    }

    /// Gives room for so many texts more, before they are added. The texts stay as they are, also where memory is refused.
    pub fn reserve(&mut self, count: usize) -> Result<(), AllocError>
        ensures { self.new ≡ self.old }
    {
        self.texts.reserve(count)
    }

    /// Adds a text.
    pub fn add(&mut self, text: &'t [u8]) -> Result<(), AllocError>
        ensures ok { OnOk result (self.new ≡ self.old ++ text.entry.now ∷ []) }
        ensures err { OnErr result (self.new ≡ self.old) }
    {
        self.texts.push(Keyed::new(text, self.texts.len()))?;
        Ok(())
    }

    /// How many texts were added. Takes no memory.
    pub fn len(&self) -> usize
        ensures { result ≡ length self.now }
    {
        self.texts.len()
    }

    /// The text before which so many were added. Takes no memory.
    pub fn text(&self, nth: usize) -> &'t [u8]
        requires { nth < length self.now }
        ensures { result.now ≡ get_or self.now nth [] }
    {
        self.texts[nth].text()
    }

    /// The table of these texts, of which none has a NUL in it; it is as short as their common ends allow. `NumberTooLarge` where it has more
    /// than 2 to the 32 bytes, so that the last of them has an offset past 32 bits. The finished table also tells where each text
    /// stands, in the order in which they were added.
    pub fn finish(self, alloc: Global) -> Result<Finished<'t>, TableFault>
        requires { HoldNoNul self }
        ensures table { MatchResult result
            (λ table. IsTableOf self.entry table × (table_length self.entry ≤ 2 ^ 32))
            (λ fault. fault ≡ NumberTooLarge → 2 ^ 32 < table_length self.entry) }
        ensures stands { IfOk result PlacesStand }
    {
        let mut texts = self.texts;
        texts.sort_unstable_by(|a, b| b.from_their_ends(a));
        lay(alloc, texts)
    }
}
