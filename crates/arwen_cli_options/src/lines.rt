//! What lines ask by the options that stand anywhere on them.
ghost use Rattle.std.specs.Prelude.{◌≡◌, IfOk, map};
ghost use Rattle.arwen_cli_options.specs.Lines.{is_elf_line as is_for_elf, is_macho_line as is_for_macho, is_moving_line, is_quiet as is_line_quiet, is_signed_line, unsigned, without_move as unmoved_words, without_quiet as heard_of};

use crate::flags::Flag;
use std::alloc::{AllocError, Global};

/// Whether a line has a word `-q` or `--quiet` that is no value: notes are left out. Takes no memory.
pub fn is_quiet(words: &[&str]) -> bool
    ensures { result ≡ is_line_quiet (map (λ w. w.now) words.now) }
{
    Flag::Quiet.is_on(words)
}

/// The words of a line without `-q` and `--quiet`. Behind a word `--` all words are values, and stay. Error:
/// `AllocError`.
pub fn without_quiet<'a>(alloc: Global, words: &[&'a str]) -> Result<Vec<&'a str>, AllocError>
    ensures { IfOk result (λ heard.
        map (λ w. w.now) heard.items ≡ heard_of (map (λ w. w.now) words.now)) }
{
    Flag::Quiet.take_off(alloc, words)
}

/// Whether a line of an ELF file has a word `--move-dynamic` that is no value: its dynamic section may move. Takes no
/// memory.
pub fn is_moved_by(words: &[&str]) -> bool
    ensures { result ≡ is_moving_line (map (λ w. w.now) words.now) }
{
    is_elf_line(words) && Flag::MoveDynamic.is_on(words)
}

/// The words of a line without `--move-dynamic`. Behind a word `--` all words are values, and stay. Error: `AllocError`.
pub fn without_move<'a>(alloc: Global, words: &[&'a str]) -> Result<Vec<&'a str>, AllocError>
    ensures { IfOk result (λ heard.
        map (λ w. w.now) heard.items ≡ unmoved_words (map (λ w. w.now) words.now)) }
{
    Flag::MoveDynamic.take_off(alloc, words)
}

/// Whether a line has a word `--sign` that is no value: code signatures are made to fit again. Takes no memory.
pub fn is_signed_by(words: &[&str]) -> bool
    ensures { result ≡ is_signed_line (map (λ w. w.now) words.now) }
{
    Flag::Sign.is_on(words)
}

/// The words of a line without `--sign`, where it is one of a Mach-O file. Behind a word `--` all words are values, and
/// stay. Error: `AllocError`.
pub fn without_sign<'a>(alloc: Global, words: &[&'a str]) -> Result<Vec<&'a str>, AllocError>
    ensures { IfOk result (λ heard.
        map (λ w. w.now) heard.items ≡ unsigned (map (λ w. w.now) words.now)) }
{
    if is_macho_line(words) {
        return Flag::Sign.take_off(alloc, words);
    }
    Vec::from_slice(alloc, words)
}

/// Whether the first word of a line is that of ELF files. Takes no memory.
fn is_elf_line(words: &[&str]) -> bool
    ensures { result ≡ is_for_elf (map (λ w. w.now) words.now) }
{
    match words.first() {
        Some(first) => *first == "elf",
        None => false,
    }
}

/// Whether the first word of a line is that of Mach-O files. Takes no memory.
fn is_macho_line(words: &[&str]) -> bool
    ensures { result ≡ is_for_macho (map (λ w. w.now) words.now) }
{
    match words.first() {
        Some(first) => *first == "macho",
        None => false,
    }
}
