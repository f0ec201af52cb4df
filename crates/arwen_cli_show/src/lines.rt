//! Lines for people: a key and a value each.
ghost use Rattle.std.specs.Prelude.{◌≡◌, ◌++◌, OnOk, option_map, replicate, string_bytes};
ghost use Rattle.arwen_cli_show.specs.Lines.{answer as answer_told, line as line_told, line_if, lines as lines_told, number_line, number_line_if};
ghost use Rattle.arwen_cli_facts.specs.Texts.{text_model, texts_model};

use std::alloc::{AllocError, Global};

/// How many bytes a key and the blanks behind its colon take.
const KEY_WIDTH: usize = 15;

/// A yes or a no.
pub(crate) fn answer(is: bool) -> &'static str
    ensures { result.now ≡ answer_told is }
{
    if is { "yes" } else { "no" }
}

/// Puts blanks behind a text.
fn put_blanks(out: &mut String, count: usize) -> Result<(), AllocError>
    ensures { OnOk result (string_bytes out.new ≡ string_bytes out.old ++ replicate count 32) }
{
    for _i in 0..count {
        out.push_str(" ")?;
    }
    Ok(())
}

/// Puts a line behind a text.
#[tactic(auto, unfolding(crate::specs::Lines::line))]
pub(crate) fn put_line(out: &mut String, key: &str, value: &str) -> Result<(), AllocError>
    ensures { OnOk result
        (string_bytes out.new ≡ string_bytes out.old ++ line_told key.now value.now) }
{
    out.push_str("  ")?;
    out.push_str(key)?;
    out.push_str(":")?;
    put_blanks(out, KEY_WIDTH.saturating_sub(key.len()))?;
    out.push_str(value)?;
    out.push_str("\n")
}

/// Puts a line behind a text where there is a value.
pub(crate) fn put_line_if(
    out: &mut String,
    key: &str,
    value: &Option<String>,
) -> Result<(), AllocError>
    ensures { OnOk result (string_bytes out.new
        ≡ string_bytes out.old ++ line_if key.now (text_model value.now)) }
{
    match value {
        None => Ok(()),
        Some(value) => put_line(out, key, value.as_str()),
    }
}

/// Puts a line for each value behind a text.
pub(crate) fn put_lines(out: &mut String, key: &str, values: &[String]) -> Result<(), AllocError>
    ensures { OnOk result (string_bytes out.new
        ≡ string_bytes out.old ++ lines_told key.now (texts_model values.now)) }
{
    for value in values {
        put_line(out, key, value.as_str())?;
    }
    Ok(())
}

/// Puts the line of a number behind a text.
pub(crate) fn put_number(
    alloc: Global,
    out: &mut String,
    key: &str,
    number: u64,
) -> Result<(), AllocError>
    ensures { OnOk result
        (string_bytes out.new ≡ string_bytes out.old ++ number_line key.now number) }
{
    let value = number.to_string(alloc)?;
    put_line(out, key, value.as_str())
}

/// Puts the line of a number behind a text where there is one.
pub(crate) fn put_number_if(
    alloc: Global,
    out: &mut String,
    key: &str,
    number: Option<u64>,
) -> Result<(), AllocError>
    ensures { OnOk result
        (string_bytes out.new ≡ string_bytes out.old ++ number_line_if key.now number) }
{
    match number {
        None => Ok(()),
        Some(number) => put_number(alloc, out, key, number),
    }
}
