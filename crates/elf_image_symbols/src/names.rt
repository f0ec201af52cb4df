//! The names of symbols in a string table (gABI, String Table).
ghost use Rattle.std.specs.Prelude.{◌≡◌, ◌≤◌, ℕ, Some, is_some, length, nat_lt, option_map, true};
ghost use Rattle.std.specs.Str.{bytes_eq};
ghost use Rattle.elf_format.specs.Memory.{memory_of, text_at};
ghost use Rattle.elf_format.specs.Records.{symbol_numbers, symbols_in};
ghost use Rattle.elf_format.specs.Views.{names_of};

use elf_format::form::Form;
use elf_format::numbers::word_at;
use memchr::{memchr, memrchr};

// One past the last NUL: a text that begins before that is there, and no other.
fn end_of_texts(texts: &[u8]) -> usize
    ensures { (room place : ℕ) → length texts.now ≤ room
        → is_some (text_at room (memory_of texts.now) place) ≡ nat_lt place result }
{
    match memrchr(0, texts) {
        Some(last) => last + 1,
        None => 0,
    }
}

// Where the name of the symbol begins whose record holds these bytes.
#[inline(always)]
#[tactic(auto, unfolding(elf_format::specs::Records::symbol_numbers))]
pub(crate) fn name_place(form: Form, bytes: &[u8]) -> u32
    ensures { result ≡ (symbol_numbers form bytes.now).st_name }
{
    word_at(form, bytes, 0)
}

// Whether each symbol of a table has its name.
pub(crate) fn are_names_there(form: Form, texts: &[u8], bytes: &[u8]) -> bool
    ensures { result ≡ is_some (names_of (length texts.now) (memory_of texts.now)
        (symbols_in form bytes.now)) }
{
    let end = end_of_texts(texts);
    let size = form.symbol_size();
    let count = bytes.len() / size;
    let mut rest = bytes;
    for _ in 0..count {
        let (record, after) = rest.split_at(size);
        if name_place(form, record) as usize >= end {
            return false;
        }
        rest = after;
    }
    true
}

// The text that begins at a place, where it is there.
pub(crate) fn text_there(texts: &[u8], place: u32) -> &[u8]
    requires { is_some (text_at (length texts.now) (memory_of texts.now) place) ≡ true }
    ensures { text_at (length texts.now) (memory_of texts.now) place ≡ Some result.now }
{
    let rest = &texts[place as usize..];
    match memchr(0, rest) {
        Some(end) => &rest[..end],
        None => unreachable!(),
    }
}

// Whether the text that begins at a place is this one. It is compared where it stands: its end isn't looked for.
#[inline(always)]
pub(crate) fn is_text_there(texts: &[u8], place: u32, text: &[u8]) -> bool
    requires { is_some (text_at (length texts.now) (memory_of texts.now) place) ≡ true }
    ensures { option_map (λ name. bytes_eq name text.now)
        (text_at (length texts.now) (memory_of texts.now) place) ≡ Some result }
{
    let rest = &texts[place as usize..];
    if rest.len() <= text.len() || rest[text.len()] != 0 {
        return false;
    }
    let (front, _) = rest.split_at(text.len());
    front == text && memchr(0, text).is_none()
}
