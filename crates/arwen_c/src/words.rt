//! Words, as a caller lends them.
ghost use Rattle.std.specs.Prelude.{◌≡◌, ◌+◌, ◌<◌, ◌≤◌, ◌^◌, Ok, IfErr, IfOk, map};
ghost use Rattle.arwen_c.specs.Words.{TellsNoText, group_behind as group_told, words_from};
ghost use Rattle.arwen_c_edits.specs.Lent.{text_model};

use crate::error::CallError;
use arwen_c_edits::LentText;
use std::alloc::Global;

/// The words that texts are. Errors: `NoText` where one is no UTF-8, with the group that it stands in; `Memory`.
pub(crate) fn words_of<'a>(
    alloc: Global,
    texts: &'a [LentText<'a>],
) -> Result<Vec<&'a str>, CallError>
    ensures ok { IfOk result (λ words.
        words_from 0 (map text_model texts.entry.now) ≡ Ok (map (λ w. w.now) words.items)) }
    ensures err { IfErr result (TellsNoText (words_from 0 (map text_model texts.entry.now))) }
{
    let mut words = Vec::with_capacity(alloc, texts.len())?;
    let mut group = 0;
    for index in 0..texts.len() {
        let Ok(word) = std::str::from_utf8(texts[index].bytes) else {
            return Err(CallError::NoText(group));
        };
        words.push(word)?;
        group = group_behind(group, word);
    }
    Ok(words)
}

/// The group of the words behind a word of a group.
fn group_behind(group: usize, word: &str) -> usize
    requires { group + 1 < 2 ^ 64 }
    ensures told { result ≡ group_told group word.now }
    ensures most { result ≤ group + 1 }
{
    if word == "+" { group + 1 } else { group }
}
