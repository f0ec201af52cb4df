//! Words of a line, and what they stand for.
ghost use Rattle.std.specs.Prelude.{◌≡◌, ◌<◌, ◌/◌, ◌%◌, ℕ, List, IfOk, false, map};
ghost use Rattle.std.specs.Fmt.{digit_glyph};
ghost use Rattle.test_cases_written.specs.Words.{AreBytes, IsNumberOrZero, cut_at_blank, hex_digits, hex_of, words_of};

use std::alloc::{AllocError, Global};

/// The number that a word is, 0 for other words.
pub fn number(word: &str) -> u64
    ensures { IsNumberOrZero 64 word.now result }
{
    word.parse::<u64>().unwrap_or(0)
}

/// A position or a length that a word is.
pub fn place(word: &str) -> usize
    ensures { IsNumberOrZero 64 word.now result }
{
    word.parse::<usize>().unwrap_or(0)
}

/// The first word of some, and the rest.
pub fn first(words: &str) -> (&str, &str)
    ensures { (result.0.now, result.1.now) ≡ cut_at_blank words.now }
{
    match words.split_once(' ') {
        Some(parts) => parts,
        None => (words, ""),
    }
}

/// The value of a digit in base 16.
fn digit(letter: u8) -> u8
    ensures { (value : ℕ) → value < 16 → letter ≡ digit_glyph false value → result ≡ value }
{
    match letter {
        b'0'..=b'9' => letter.wrapping_sub(b'0'),
        _ => letter.wrapping_sub(b'a').wrapping_add(10),
    }
}

/// The byte that two digits are.
fn byte(high: u8, low: u8) -> u8
    ensures { (value : ℕ) → value < 256 → high ≡ digit_glyph false (value / 16)
        → low ≡ digit_glyph false (value % 16) → result ≡ value }
{
    digit(high).wrapping_mul(16).wrapping_add(digit(low))
}

/// The bytes that a word in hex is, none for `-`.
pub fn bytes_of(alloc: Global, word: &str) -> Result<Vec<u8>, AllocError>
    ensures { IfOk result (λ made. (bytes : List ℕ) → AreBytes bytes
        → word.now ≡ hex_of bytes → made.items ≡ bytes) }
{
    if word == "-" {
        Ok(Vec::new(alloc))
    } else {
        bytes_spelled(alloc, word.as_bytes())
    }
}

/// The bytes that digits are, two for each.
fn bytes_spelled(alloc: Global, digits: &[u8]) -> Result<Vec<u8>, AllocError>
    ensures { IfOk result (λ made. (bytes : List ℕ) → AreBytes bytes
        → digits.now ≡ hex_digits bytes → made.items ≡ bytes) }
{
    let (pairs, _) = digits.as_chunks::<2>();
    let mut made = Vec::new(alloc);
    for pair in pairs {
        made.push(byte(pair[0], pair[1]))?;
    }
    Ok(made)
}

/// The words as texts.
pub fn texts_of(alloc: Global, words: &str) -> Result<Vec<Vec<u8>>, AllocError>
    ensures { IfOk result (λ texts. map (λ text. text.items) texts.items ≡ words_of words.now) }
{
    let mut texts = Vec::new(alloc);
    for word in words.split(' ') {
        texts.push(Vec::from_slice(alloc, word.as_bytes())?)?;
    }
    Ok(texts)
}
