ghost use Rattle.std.specs.Prelude.{◌≡◌, ◌≤◌, ◌<◌, ◌^◌, ◌+◌, [], ◌∷◌, All, false, length, nat_eq, IfOk, MatchResult};
ghost use Rattle.std.specs.List.{ends_with};
ghost use Rattle.std.specs.List.Sorted.{IsSortedBy};
ghost use Rattle.elf_tables.specs.declared.fault.TableFault.TheVariants.{NumberTooLarge};
ghost use Rattle.elf_tables.specs.Strings.{HoldNoNul};
ghost use Rattle.elf_tables.specs.StringSteps.{AreLaid, AreOrdered, IsLaid, PutsText, StandsWith, is_before, laid_length, texts_in};

use crate::fault::TableFault;
use crate::finished::Finished;
use crate::keyed::Keyed;
use std::alloc::{AllocError, Global};
use std::collections::HashMap;

// How many bytes a table may have: each has an offset of 32 bits.
const MOST_BYTES: usize = 0x1_0000_0000;

// How many bytes of room a table is given at once at most.
const MOST_ROOM: usize = 0x200_0000;

// Puts a text into a table, where the text of `last` stands at a place, and tells where the text stands.
fn put_text(
    bytes: &mut Vec<u8>,
    last: &Keyed<'_>,
    place: u32,
    keyed: &Keyed<'_>,
) -> Result<u32, TableFault>
    requires fits { length bytes.old.items ≤ 2 ^ 32 }
    requires last_stands { StandsWith bytes.old.items place last.now.text }
    ensures puts { MatchResult result
        (PutsText bytes.old.items bytes.new.items last.now.text keyed.now.text)
        (λ fault. fault ≡ NumberTooLarge → (ends_with nat_eq last.now.text keyed.now.text ≡ false)
        × (2 ^ 32 < length bytes.old.items + (length keyed.now.text + 1))) }
    ensures same { IfOk result (λ at. last.now.text ≡ keyed.now.text → at ≡ place) }
{
    let text = keyed.text();
    if keyed.ends(last) {
        return Ok(place + (last.text().len() - text.len()) as u32);
    }
    let end = bytes.len();
    if text.len() >= MOST_BYTES - end {
        return Err(TableFault::NumberTooLarge);
    }
    bytes.extend_from_slice(text)?;
    bytes.push(0)?;
    Ok(end as u32)
}

// How many bytes of room a table of these texts is given at first: as many as it has if no two share an end, but no
// more than a bound.
fn room_for(texts: &[Keyed<'_>]) -> usize
    ensures { result ≤ 2 ^ 25 }
{
    let mut room: usize = 1;
    for keyed in texts {
        room = (room + keyed.text().len() + 1).min(MOST_ROOM);
    }
    room
}

// A table of no text, with so much room, or none where that is refused: it grows with its texts.
fn begun(alloc: Global, room: usize) -> Result<Vec<u8>, AllocError>
    ensures { IfOk result (λ table. table.items ≡ 0 ∷ []) }
{
    let mut table = Vec::from_slice(alloc, &[0])?;
    let _ = table.reserve(room);
    Ok(table)
}

// The bytes of a table, and where each of its texts stands in them.
#[derive(Drop)]
struct Laid {
    bytes: Vec<u8>,
    places: Vec<u32>,
}

// The bytes of texts in suffix order, in which each stands behind those that end with it, with their tails merged: each
// stands within the one before it where it ends that one; the first of them behind an empty text.
fn lay_bytes<'k, 't>(
    alloc: Global,
    texts: &'k [Keyed<'t>],
    empty: &'k Keyed<'t>,
) -> Result<Laid, TableFault>
    requires empty { empty.now.text ≡ [] }
    requires none { HoldNoNul (texts_in texts.now) }
    requires sorted { IsSortedBy is_before (texts_in texts.now) }
    ensures { MatchResult result
        (λ laid. AreLaid texts.now laid.bytes.items laid.places.items)
        (λ fault. fault ≡ NumberTooLarge → 2 ^ 32 < laid_length (texts_in texts.now)) }
{
    let mut places = Vec::with_capacity(alloc, texts.len())?;
    let mut bytes = begun(alloc, room_for(texts))?;
    let mut last = empty;
    let mut place = 0;
    for keyed in texts {
        place = put_text(&mut bytes, last, place, keyed)?;
        places.push(place)?;
        last = keyed;
    }
    Ok(Laid { bytes, places })
}

// The places of texts by their numbers, which are those of the order in which they were added.
fn in_order(alloc: Global, texts: &[Keyed<'_>], places: &[u32]) -> Result<Vec<u32>, AllocError>
    requires many { length places.now ≡ length texts.now }
    requires numbered { All (λ k. k.nth < length texts.now) texts.now }
    ensures { IfOk result (λ order.
        AreOrdered texts.now places.now order.items (length texts.now)) }
{
    let mut order = Vec::new(alloc);
    order.resize(texts.len(), 0)?;
    for i in 0..texts.len() {
        order[texts[i].nth()] = places[i];
    }
    Ok(order)
}

// The table of texts in an order in which each stands behind those that end with it.
pub(crate) fn lay<'t>(alloc: Global, texts: Vec<Keyed<'t>>) -> Result<Finished<'t>, TableFault>
    requires none { HoldNoNul (texts_in texts.items) }
    requires sorted { IsSortedBy is_before (texts_in texts.items) }
    requires numbered { All (λ k. k.nth < length texts.items) texts.items }
    ensures { MatchResult result
        (IsLaid texts.entry.items)
        (λ fault. fault ≡ NumberTooLarge
        → 2 ^ 32 < laid_length (texts_in texts.entry.items)) }
{
    let empty: Keyed<'t> = Keyed::new(&[], 0);
    let laid = lay_bytes(alloc, texts.as_slice(), &empty)?;
    let in_order = in_order(alloc, texts.as_slice(), laid.places.as_slice())?;
    Ok(Finished {
        bytes: laid.bytes,
        texts,
        places: laid.places,
        in_order,
        placed: HashMap::new(alloc),
    })
}
