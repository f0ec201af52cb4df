//! Values of commands that not every word is: numbers, and pairs of a key and a value.
ghost use Rattle.std.specs.Prelude.{◌≡◌, Ok, Some as some, IfErr, IfOk, map, string_bytes};
ghost use Rattle.command_words.specs.KeyValue.{decimal_number as number_written, key_value};
ghost use Rattle.command_words.specs.WordValues.{TellsNoNumber, TellsNoPair, TellsNoPairs, text_pair_model, pairs_from};
ghost use Rattle.command_words.specs.declared.word_values.ValueError.TheVariants.{Memory};

use crate::key_value::{KeyValueError, decimal_number, parse_key_val};
use std::alloc::{AllocError, AllocFailed, Global};
use thiserror::Error;

/// Why words are not the values that a command takes.
#[derive(Debug, Drop, Error)]
pub enum ValueError {
    /// The word is no decimal number of 32 bits.
    #[error("`{0}` is no decimal number of 32 bits")]
    NoNumber(String),
    /// No `=` stands in a word that is to be a key and a value.
    #[error("invalid KEY=value: no `=` found in `{word}`")]
    NoPair {
        /// The word.
        word: String,
        /// The word's place among the words, counted from 1.
        place: usize,
    },
    /// There was no memory.
    #[error("out of memory")]
    Memory,
}

impl From<AllocError> for ValueError {
    ghost from_gives = { λ _ answer. answer ≡ Memory };

    fn from(_error: AllocError) -> ValueError {
        ValueError::Memory
    }
}

impl<T: Drop> From<AllocFailed<T>> for ValueError {
    ghost from_gives = { λ _ answer. answer ≡ Memory };

    fn from(_error: AllocFailed<T>) -> ValueError {
        ValueError::Memory
    }
}

/// The number that a word writes in decimal digits. Error: `NoNumber`, which holds the word. Takes no memory.
pub fn number_of(word: String) -> Result<u32, ValueError>
    ensures ok { IfOk result (λ number. number_written (string_bytes word) ≡ some number) }
    ensures err { IfErr result (TellsNoNumber (string_bytes word)) }
{
    match decimal_number(word.as_str()) {
        Some(number) => Ok(number),
        None => Err(ValueError::NoNumber(word)),
    }
}

/// The pairs that words KEY=value are. Errors: `NoPair` for the first word without a `=`, `Memory`.
pub fn pairs_of(alloc: Global, words: &[String]) -> Result<Vec<(String, String)>, ValueError>
    ensures ok { IfOk result (λ pairs.
        pairs_from 1 (map string_bytes words.now) ≡ Ok (map text_pair_model pairs.items)) }
    ensures err { IfErr result (TellsNoPairs (map string_bytes words.now)) }
{
    let mut pairs = Vec::with_capacity(alloc, words.len())?;
    for word in words {
        pairs.push(pair_of(alloc, pairs.len() + 1, word.as_str())?)?;
    }
    Ok(pairs)
}

/// The pair that the word at this place is.
fn pair_of(alloc: Global, place: usize, word: &str) -> Result<(String, String), ValueError>
    ensures ok { IfOk result (λ pair. key_value word.now ≡ some (text_pair_model pair)) }
    ensures err { IfErr result (TellsNoPair place word.now) }
{
    match parse_key_val(alloc, word) {
        Ok(pair) => Ok(pair),
        Err(KeyValueError::NoEquals(word)) => Err(ValueError::NoPair { word, place }),
        Err(KeyValueError::Memory) => Err(ValueError::Memory),
    }
}
