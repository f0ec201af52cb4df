//! Words KEY=value, and decimal numbers.
ghost use Rattle.std.specs.Prelude.{◌≡◌, Some as some, IfErr, IfOk, string_bytes};
ghost use Rattle.command_words.specs.KeyValue.{TellsNoEquals, decimal_number as number_written, is_decimal as is_decimal_word, key_value};
ghost use Rattle.command_words.specs.declared.key_value.KeyValueError.TheVariants.{Memory};

use std::alloc::{AllocError, AllocFailed, Global};
use thiserror::Error;

/// Why a word was not read as a key and a value.
#[derive(Debug, Drop, Error)]
pub enum KeyValueError {
    /// No `=` stands in the word, which is told.
    #[error("invalid KEY=value: no `=` found in `{0}`")]
    NoEquals(String),
    /// There was no memory.
    #[error("out of memory")]
    Memory,
}

impl From<AllocError> for KeyValueError {
    ghost from_gives = { λ _ answer. answer ≡ Memory };

    fn from(_error: AllocError) -> KeyValueError {
        KeyValueError::Memory
    }
}

impl<T: Drop> From<AllocFailed<T>> for KeyValueError {
    ghost from_gives = { λ _ answer. answer ≡ Memory };

    fn from(_error: AllocFailed<T>) -> KeyValueError {
        KeyValueError::Memory
    }
}

/// Cuts a word at its first `=`: the key stands before it, the value behind it. Errors: `NoEquals`, `Memory`.
pub fn parse_key_val(alloc: Global, word: &str) -> Result<(String, String), KeyValueError>
    ensures ok { IfOk result (λ pair.
        key_value word.now ≡ some (string_bytes pair.0, string_bytes pair.1)) }
    ensures err { IfErr result (TellsNoEquals word.now) }
{
    match word.split_once('=') {
        Some((key, value)) => {
            let key = String::from_str(alloc, key)?;
            let value = String::from_str(alloc, value)?;
            Ok((key, value))
        }
        None => Err(KeyValueError::NoEquals(String::from_str(alloc, word)?)),
    }
}

// Whether a word is one decimal digit or more, and nothing else.
fn is_decimal(word: &str) -> bool
    ensures { result ≡ is_decimal_word word.now }
{
    for byte in word.as_bytes() {
        if !byte.is_ascii_digit() {
            return false;
        }
    }
    !word.is_empty()
}

/// The number that a word writes in decimal digits alone; `None` where it is no such number, or one past 32 bits.
/// Takes no memory.
pub fn decimal_number(word: &str) -> Option<u32>
    ensures { result ≡ number_written word.now }
{
    if is_decimal(word) {
        word.parse::<u32>().ok()
    } else {
        None
    }
}
