//! What words are read as.
use command_words::{KeyValueError, parse_key_val};
use std::alloc::{AllocError, Global};
use test_cases_files::put_no_edits;
use test_cases_files::words::edits_of;

/// Puts down the edits that words are, or the fault.
pub(crate) fn read_edits(alloc: Global, line: &str, out: &mut String) -> Result<(), AllocError> {
    match edits_of(alloc, line) {
        Ok(edits) => writeln!(out, "{edits:?}"),
        Err(error) => put_no_edits(&error, out),
    }
}

/// Puts down the key and the value of a word, or the fault.
pub(crate) fn read_pair(alloc: Global, word: &str, out: &mut String) -> Result<(), AllocError> {
    match parse_key_val(alloc, word) {
        Ok((key, value)) => writeln!(out, "key {key}, value {value}"),
        Err(KeyValueError::Memory) => Err(AllocError),
        Err(fault) => writeln!(out, "{fault}"),
    }
}
