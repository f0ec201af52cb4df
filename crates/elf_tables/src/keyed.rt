ghost use Rattle.std.specs.Prelude.{◌≡◌, nat_eq, reverse, slice_index};
ghost use Rattle.std.specs.List.{ends_with};
ghost use Rattle.std.specs.Cmp.Lexicographic.{slice_cmp};
ghost use Rattle.std.specs.Ordering.{nat_cmp};
ghost use Rattle.elf_tables.specs.EndKeys.{end_key as key_of_end};

use byteorder::{ByteOrder, LittleEndian};
use std::cmp::Ordering;
use std::marker::Model;

// How two texts compare by their bytes, the last one first: their suffix order.
pub(crate) fn from_their_ends(a: &[u8], b: &[u8]) -> Ordering
    ensures { result ≡ slice_cmp nat_cmp (reverse a.now) (reverse b.now) }
{
    a.iter().rev().cmp(b.iter().rev())
}

// The byte of a text with so many behind it; 0 where it has none there.
fn byte_before(text: &[u8], back: usize) -> u8
    ensures { result ≡ slice_index (reverse text.now) back }
{
    if back < text.len() {
        text[text.len() - 1 - back]
    } else {
        0
    }
}

// A text's last 8 bytes as one number, the last byte the highest, byte by byte; 0 for those that it doesn't have.
fn end_key_by_byte(text: &[u8]) -> u64
    ensures { result ≡ key_of_end text.now }
{
    let mut key = 0;
    for back in 0..8 {
        key = key * 256 + u64::from(byte_before(text, back));
    }
    key
}

// A text's last 8 bytes as one number, the last byte the highest, at once where the text has 8
// bytes.
fn end_key(text: &[u8]) -> u64
    ensures { result ≡ key_of_end text.now }
{
    if text.len() < 8 {
        return end_key_by_byte(text);
    }
    LittleEndian::read_u64(&text[text.len() - 8..])
}

// A text with the number of its end, by which most texts are told apart.
#[derive(Drop)]
pub(crate) struct Keyed<'t> {
    key: u64,
    text: &'t [u8],
    // How many texts were added to its table before it.
    nth: usize,
}

impl<'t> Model for Keyed<'t> {
    ghost use Rattle.elf_tables.specs.KeyedModel.{IsKeyed, numbered_model};
    ghost use Rattle.elf_tables.specs.StringSteps.{Numbered};

    ghost Value = { Numbered };

    ghost view = { numbered_model };

    ghost invariant = { IsKeyed };
}

impl<'t> Keyed<'t> {
    // A text with its number, before which so many were added.
    pub(crate) fn new(text: &'t [u8], nth: usize) -> Self
        ensures { result ≡ record { text = text.entry.now; nth = nth } }
    {
        Keyed {
            key: end_key(text),
            text,
            nth,
        }
    }

    // How many texts were added before it.
    pub(crate) fn nth(&self) -> usize
        ensures { result ≡ self.now.nth }
    {
        self.nth
    }

    // The text.
    pub(crate) fn text(&self) -> &'t [u8]
        ensures { result.now ≡ self.now.text }
    {
        self.text
    }

    // How two texts compare by their bytes, the last one first.
    pub(crate) fn from_their_ends(&self, other: &Keyed<'_>) -> Ordering
        ensures { result ≡ slice_cmp nat_cmp (reverse self.now.text) (reverse other.now.text) }
    {
        if self.key != other.key {
            return self.key.cmp(&other.key);
        }
        from_their_ends(self.text, other.text)
    }
    // Whether a text ends another. Most are told apart by the numbers of their ends.
    pub(crate) fn ends(&self, other: &Keyed<'_>) -> bool
        ensures { result ≡ ends_with nat_eq other.now.text self.now.text }
    {
        (self.text.len() < 8 || self.key == other.key) && other.text.ends_with(self.text)
    }
}
