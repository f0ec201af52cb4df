//! The options that may stand anywhere on a line before `--` and take no value.
ghost use Rattle.std.specs.Prelude.{◌≡◌, IfOk, map};
ghost use Rattle.arwen_cli_options.specs.Flags.{has_flag, is_flag_word, is_mark as marks_values, without_flag};

use std::alloc::{AllocError, Global};

/// An option that may stand anywhere on a line before `--`.
#[derive(Clone, Copy)]
pub(crate) enum Flag {
    /// `-q` or `--quiet`: notes are left out.
    Quiet,
    /// `--move-dynamic`: the dynamic section of an edited ELF file may move.
    MoveDynamic,
    /// `--sign`: the code signatures of edited Mach-O files are made to fit again.
    Sign,
}

impl Flag {
    /// Whether a word is this option.
    fn is_word(self, word: &str) -> bool
        ensures { result ≡ is_flag_word self word.now }
    {
        match self {
            Flag::Quiet => word == "-q" || word == "--quiet",
            Flag::MoveDynamic => word == "--move-dynamic",
            Flag::Sign => word == "--sign",
        }
    }

    /// Whether a line has it where it is no value.
    pub(crate) fn is_on(self, words: &[&str]) -> bool
        ensures { result ≡ has_flag (is_flag_word self) (map (λ w. w.now) words.now) }
    {
        for word in words {
            if is_mark(word) {
                return false;
            }
            if self.is_word(word) {
                return true;
            }
        }
        false
    }

    /// The words of a line without it. Behind a word `--` all words are values, and stay. Error: `AllocError`.
    pub(crate) fn take_off<'a>(
        self,
        alloc: Global,
        words: &[&'a str],
    ) -> Result<Vec<&'a str>, AllocError>
        ensures { IfOk result (λ heard. map (λ w. w.now) heard.items
            ≡ without_flag (is_flag_word self) (map (λ w. w.now) words.now)) }
    {
        let mut heard = Vec::with_capacity(alloc, words.len())?;
        let mut is_open = true;
        for word in words {
            if is_open && self.is_word(word) {
                continue;
            }
            if is_mark(word) {
                is_open = false;
            }
            heard.push(*word)?;
        }
        Ok(heard)
    }
}

/// Whether a word is the one behind which all are values.
fn is_mark(word: &str) -> bool
    ensures { result ≡ marks_values word.now }
{
    word == "--"
}
