ghost use Rattle.std.specs.Prelude.{◌↔◌, ◌≡◌, Some, IfSome, IsTrue};
ghost use Rattle.std.specs.Map.{lookup};
ghost use Rattle.std.specs.Str.{bytes_eq};
ghost use Rattle.elf_tables.specs.Strings.{StandsAt as StandsThere};
ghost use Rattle.elf_tables.specs.StringSteps.{AreTold, StandsWith, with_places};

use crate::keyed::Keyed;
use std::alloc::{AllocError, Global};
use std::collections::HashMap;
use std::marker::Model;

// Whether a text with a NUL behind it is there, from a place of a table on.
fn is_there(bytes: &[u8], place: u32, text: &[u8]) -> bool
    ensures { IsTrue result ↔ StandsWith bytes.now place text.now }
{
    let start = place as usize;
    if start >= bytes.len() || text.len() >= bytes.len() - start {
        return false;
    }
    let rest = &bytes[start..];
    if !rest.starts_with(text) {
        return false;
    }
    rest[text.len()] == 0
}

// Whether a text with no NUL in it stands at a place of a table, a NUL behind it.
fn does_stand(bytes: &[u8], place: u32, text: &[u8]) -> bool
    ensures { IsTrue result ↔ StandsThere bytes.now place text.now }
{
    if text.contains(&0) {
        return false;
    }
    is_there(bytes, place, text)
}

/// A finished string table (gABI, String Table): its bytes, and where each text that was added or placed stands.
#[derive(Drop)]
pub struct Finished<'t> {
    pub(crate) bytes: Vec<u8>,
    // The texts that the table was made of, in the order in which they were laid.
    pub(crate) texts: Vec<Keyed<'t>>,
    // Where each of the texts stands.
    pub(crate) places: Vec<u32>,
    // Where each text stands, in the order in which they were added.
    pub(crate) in_order: Vec<u32>,
    // The texts that were placed, and where.
    pub(crate) placed: HashMap<&'t [u8], u32>,
}

impl<'t> Model for Finished<'t> {
    ghost use Rattle.std.specs.Prelude.{◌++◌};
    ghost use Rattle.elf_tables.specs.Strings.{PlacesStand, Strings};
    ghost use Rattle.elf_tables.specs.StringSteps.{AreTold, by_bytes, with_places};

    ghost Value = { Strings };

    ghost view = { λ f. record {
      bytes = f.bytes.items;
      places = by_bytes f.placed.entries ++ with_places f.texts.items f.places.items;
      in_order = f.in_order.items;
    } };

    ghost invariant = { λ f. PlacesStand (record {
      bytes = f.bytes.items;
      places = by_bytes f.placed.entries ++ with_places f.texts.items f.places.items;
      in_order = f.in_order.items;
    }) × AreTold (with_places f.texts.items f.places.items) };
}

// Where a text was laid, which is looked for from the first on.
fn place_from_first(texts: &[Keyed<'_>], places: &[u32], text: &[u8]) -> Option<u32>
    ensures { result ≡ lookup (bytes_eq text.now) (with_places texts.now places.now) }
{
    for i in 0..texts.len().min(places.len()) {
        if text == texts[i].text() {
            return Some(places[i]);
        }
    }
    None
}

// The place at a position of what was laid, where that text is there.
fn place_at(texts: &[Keyed<'_>], places: &[u32], i: usize, text: &[u8]) -> Option<u32>
    requires { AreTold (with_places texts.now places.now) }
    ensures { IfSome result (λ place.
        lookup (bytes_eq text.now) (with_places texts.now places.now) ≡ Some place) }
{
    if i < texts.len() && i < places.len() && text == texts[i].text() {
        return Some(places[i]);
    }
    None
}

// Where a text was laid. They stand in their order from their ends, so it is found there, unless it wasn't laid.
fn laid_place(texts: &[Keyed<'_>], places: &[u32], text: &[u8]) -> Option<u32>
    requires { AreTold (with_places texts.now places.now) }
    ensures { result ≡ lookup (bytes_eq text.now) (with_places texts.now places.now) }
{
    let wanted = Keyed::new(text, 0);
    if let Ok(i) = texts.binary_search_by(|keyed| wanted.from_their_ends(keyed)) {
        if let Some(place) = place_at(texts, places, i, text) {
            return Some(place);
        }
    }
    place_from_first(texts, places, text)
}

impl<'t> Finished<'t> {
    ghost use Rattle.std.specs.Prelude.{◌≡◌, [], IfOk, IfSome, MatchBool, OnErr};
    ghost use Rattle.elf_tables.specs.Strings.{IsPlaced, PlacesStand, StandsAt, place_of};

    /// A table of these bytes that was made elsewhere and is copied: it tells no place until a text is placed. Takes no
    /// memory.
    pub fn copied(bytes: Vec<u8>, alloc: Global) -> Self
        ensures made { result ≡ record { bytes = bytes.items; places = []; in_order = [] } }
        ensures stands { PlacesStand result }
    {
        Finished {
            bytes,
            texts: Vec::new(alloc),
            places: Vec::new(alloc),
            in_order: Vec::new(alloc),
            placed: HashMap::new(alloc),
        }
    }

    /// Places a text at an offset, where it stands there in the table's bytes, with a NUL behind it and none in it; `false`
    /// where it doesn't, and then nothing changes.
    pub fn place(&mut self, text: &'t [u8], offset: u32) -> Result<bool, AllocError>
        ensures ok { IfOk result (λ is_placed. MatchBool is_placed
            (IsPlaced self.old self.new text.entry.now offset)
            ((self.new ≡ self.old) × (¬ StandsAt self.old.bytes offset text.entry.now))) }
        ensures stands { PlacesStand self.new }
        ensures err { OnErr result (self.new ≡ self.old) }
    {
        if !does_stand(&self.bytes, offset, text) {
            return Ok(false);
        }
        self.placed.insert(text, offset)?;
        Ok(true)
    }

    /// The table's bytes. Takes no memory.
    pub fn bytes(&self) -> &[u8]
        ensures { result.now ≡ self.now.bytes }
    {
        self.bytes.as_slice()
    }

    /// Where a text stands in the table, with a NUL behind it, or `None` for one that wasn't added or placed. Takes
    /// no memory. A text that was added is searched for among the sorted texts.
    pub fn offset_of(&self, text: &[u8]) -> Option<u32>
        ensures place { result ≡ place_of self.now text.now }
        ensures stands { IfSome result (λ place. StandsAt self.now.bytes place text.now) }
    {
        match self.placed.get(text).copied() {
            Some(place) => Some(place),
            None => laid_place(&self.texts, &self.places, text),
        }
    }

    /// Where the texts that were added stand, in the order in which they were added; none of a table that is copied. Takes no
    /// memory.
    pub fn in_order(&self) -> &[u32]
        ensures { result.now ≡ self.now.in_order }
    {
        self.in_order.as_slice()
    }
}
