//! The parts of texts between separators.
ghost use Rattle.std.specs.Prelude.{◌≡◌, ◌==◌, ◌<◌, IfOk};
ghost use Rattle.std.specs.List.{slice_split};
ghost use Rattle.command_words.specs.Parts.{texts_lent, without_empty};

use std::alloc::{AllocError, Global};

/// The parts of a text between these separators that have a byte.
pub fn filled_parts<'t>(
    alloc: Global,
    text: &'t str,
    separator: char,
) -> Result<Vec<&'t str>, AllocError>
    requires { separator < 128 }
    ensures { IfOk result (λ parts. texts_lent parts.items
        ≡ without_empty (slice_split (λ byte. byte == separator) text.now)) }
{
    let parts = parts_of(alloc, text, separator)?;
    filled(alloc, parts.as_slice())
}

/// The parts of a text between these separators.
fn parts_of<'t>(alloc: Global, text: &'t str, separator: char) -> Result<Vec<&'t str>, AllocError>
    requires { separator < 128 }
    ensures { IfOk result (λ parts. texts_lent parts.items
        ≡ slice_split (λ byte. byte == separator) text.now) }
{
    let mut parts = Vec::new(alloc);
    for part in text.split(separator) {
        parts.push(part)?;
    }
    Ok(parts)
}

/// Of texts those that have a byte.
fn filled<'t>(alloc: Global, texts: &[&'t str]) -> Result<Vec<&'t str>, AllocError>
    ensures { IfOk result (λ made. texts_lent made.items ≡ without_empty (texts_lent texts.now)) }
{
    let mut made = Vec::new(alloc);
    for text in texts {
        if !text.is_empty() {
            made.push(*text)?;
        }
    }
    Ok(made)
}
