//! What is told of a file, written.
ghost use Rattle.std.specs.Prelude.{◌≡◌, ◌++◌, IfErr, IfOk, OnOk, string_bytes};
ghost use Rattle.serde_json.specs.View.{members_view, view};
ghost use Rattle.arwen_cli_facts.specs.FileFacts.{summary_model};
ghost use Rattle.arwen_cli_show.specs.Json.{file_data, with_facts};
ghost use Rattle.arwen_cli_show.specs.Lines.{fact_lines, file_lines};
ghost use Rattle.arwen_cli_facts.specs.Refusals.{Refuses};
ghost use Rattle.arwen_cli_show.specs.Shown.{FailsShow, Shows, Tells, TellsOf};
ghost use Rattle.arwen_cli_show.specs.declared.show.Style.TheVariants.{Json};

use crate::lines::put_line;
use crate::members::{Members, put_text};
use crate::{elf_json, elf_lines, macho_json, macho_lines};
use arwen_cli_facts::{ShowError, Summary, summarize};
use serde_json::{Map, Value};
use std::alloc::{AllocError, Global};
use std::io::Write;

/// How facts are written.
#[derive(Clone, Copy, Debug)]
pub enum Style {
    /// The file's name with a colon, and a line for each fact: two blanks, a key, its value.
    Lines,
    /// One line of JSON: an object with the same keys, and the file's name at `file`.
    Json,
}

/// Writes what is told of the bytes of a file, in one write. The name is what the file is called in it. Errors: those of
/// `summarize`, and then nothing was written; `Io` where the writer failed.
pub fn show_bytes<W: Write>(
    alloc: Global,
    name: &str,
    bytes: &[u8],
    style: Style,
    out: &mut W,
) -> Result<(), ShowError>
    ensures shows { OnOk result
        (Shows style name.now bytes.now (W.contents out.old) (W.contents out.new)) }
    ensures fails { IfErr result (FailsShow bytes.now out.old out.new) }
{
    let text = text_of_bytes(alloc, name, bytes, style)?;
    Ok(out.write_all(text.as_bytes())?)
}

/// What is told of the bytes of a file, as text.
pub(crate) fn text_of_bytes(
    alloc: Global,
    name: &str,
    bytes: &[u8],
    style: Style,
) -> Result<String, ShowError>
    ensures tells { IfOk result (λ text.
        TellsOf style name.now bytes.now (string_bytes text)) }
    ensures refused { IfErr result (Refuses bytes.now) }
{
    let summary = summarize(alloc, bytes)?;
    let text = text_of(alloc, name, &summary, style);
    drop(summary);
    Ok(text?)
}

/// What is told of a file, as text.
pub fn text_of(
    alloc: Global,
    name: &str,
    summary: &Summary,
    style: Style,
) -> Result<String, AllocError>
    ensures { IfOk result (λ text.
        Tells style name.now (summary_model summary.now) (string_bytes text)) }
{
    match style {
        Style::Lines => lines_of(alloc, name, summary),
        Style::Json => json_line(alloc, name, summary),
    }
}

/// The lines of a file.
fn lines_of(alloc: Global, name: &str, summary: &Summary) -> Result<String, AllocError>
    ensures { IfOk result (λ text.
        string_bytes text ≡ file_lines name.now (summary_model summary.now)) }
{
    let mut text = String::from_str(alloc, name)?;
    text.push_str(":\n")?;
    put_facts(alloc, &mut text, summary)?;
    Ok(text)
}

/// Puts the lines of facts behind a text.
#[tactic(auto, unfolding(crate::specs::Lines::fact_lines))]
fn put_facts(alloc: Global, out: &mut String, summary: &Summary) -> Result<(), AllocError>
    ensures { OnOk result (string_bytes out.new
        ≡ string_bytes out.old ++ fact_lines (summary_model summary.now)) }
{
    match summary {
        Summary::Elf(elf) => elf_lines::put_elf(alloc, out, elf),
        Summary::Macho(macho) => {
            put_line(out, "format", "macho")?;
            macho_lines::put_macho(alloc, out, macho)
        }
        Summary::Fat(slices) => {
            put_line(out, "format", "fat")?;
            macho_lines::put_slices(alloc, out, slices.as_slice())
        }
    }
}

/// The line of JSON of a file.
fn json_line(alloc: Global, name: &str, summary: &Summary) -> Result<String, AllocError>
    ensures { IfOk result (λ text.
        Tells Json name.now (summary_model summary.now) (string_bytes text)) }
{
    let mut text = json_of(alloc, name, summary)?.to_string(alloc)?;
    text.push_str("\n")?;
    Ok(text)
}

/// What is told of a file, as JSON.
pub fn json_of(alloc: Global, name: &str, summary: &Summary) -> Result<Value, AllocError>
    ensures { IfOk result (λ v. view v ≡ file_data name.now (summary_model summary.now)) }
{
    let mut members = Map::new(alloc);
    put_text(alloc, &mut members, "file", name)?;
    put_members(alloc, &mut members, summary)?;
    Ok(Value::Object(members))
}

/// Puts facts among the members of an object.
#[tactic(auto, unfolding(crate::specs::Json::with_facts))]
fn put_members(alloc: Global, members: &mut Members, summary: &Summary) -> Result<(), AllocError>
    ensures { OnOk result (members_view members.new.entries
        ≡ with_facts (summary_model summary.now) (members_view members.old.entries)) }
{
    match summary {
        Summary::Elf(elf) => {
            put_text(alloc, members, "format", "elf")?;
            elf_json::put_elf(alloc, members, elf)
        }
        Summary::Macho(macho) => {
            put_text(alloc, members, "format", "macho")?;
            macho_json::put_macho(alloc, members, macho)
        }
        Summary::Fat(slices) => {
            put_text(alloc, members, "format", "fat")?;
            macho_json::put_slices(alloc, members, slices.as_slice())
        }
    }
}
