//! The line that tells why a file is refused.
ghost use Rattle.std.specs.Prelude.{◌≡◌, ◌++◌, IfOk, OnOk, string_bytes};
ghost use Rattle.arwen_cli_facts.specs.Reasons.{IsBracketOf, IsToldText, bracket_text, file_line as line_told};
ghost use Rattle.arwen_cli_facts.specs.Texts.{text_model};

use crate::refusal::Told;
use std::alloc::{AllocError, Global};

/// The line that tells of the file at a path: the path, the causes, and in brackets what the last cause leaves open, where
/// there is that. It has no line end. Error: `AllocError`.
pub fn file_line(
    alloc: Global,
    path: &str,
    causes: &str,
    bracket: &Option<String>,
) -> Result<String, AllocError>
    ensures { IfOk result (λ line.
        string_bytes line ≡ line_told path.now causes.now (text_model bracket.now)) }
{
    let mut line = String::from_str(alloc, path)?;
    line.push_str(": ")?;
    line.push_str(causes)?;
    put_bracket(&mut line, bracket)?;
    Ok(line)
}

/// Puts a text in brackets behind another, where there is one.
fn put_bracket(line: &mut String, bracket: &Option<String>) -> Result<(), AllocError>
    ensures { OnOk result
        (string_bytes line.new ≡ string_bytes line.old ++ bracket_text (text_model bracket.now)) }
{
    match bracket {
        None => Ok(()),
        Some(text) => put_bracketed(line, text.as_str()),
    }
}

/// Puts a text in brackets behind another.
fn put_bracketed(line: &mut String, text: &str) -> Result<(), AllocError>
    ensures { OnOk result
        (string_bytes line.new ≡ string_bytes line.old ++ bracket_text (Some text.now)) }
{
    line.push_str(" (")?;
    line.push_str(text)?;
    line.push_str(")")
}

/// What stands in brackets for what an error leaves open. Error: `AllocError`.
pub fn bracket_of(alloc: Global, reason: Option<Told<'_>>) -> Result<Option<String>, AllocError>
    ensures { IfOk result (λ text. IsBracketOf reason.entry (text_model text)) }
{
    match reason {
        None => Ok(None),
        Some(told) => Ok(Some(told_text(alloc, told)?)),
    }
}

/// The text of what an error leaves open.
fn told_text(alloc: Global, told: Told<'_>) -> Result<String, AllocError>
    ensures { IfOk result (λ text. IsToldText told.entry (string_bytes text)) }
{
    match told {
        Told::Words(words) => String::from_str(alloc, words),
        Told::Rule(rule) => format!(in alloc; "{rule}"),
    }
}
