//! Lines of patchelf, read.
ghost use Rattle.std.specs.Prelude.{◌≡◌, Ok, IfErr, IfOk, codes, map, string_bytes};
ghost use Rattle.arwen_cli_options.specs.Asked.{asked_model};
ghost use Rattle.arwen_cli_options.specs.Options.{given_model, line_of as words_give, values_of as values_given};
ghost use Rattle.arwen_cli_options.specs.Tables.{patchelf_known};
ghost use Rattle.arwen_cli_patchelf_lines.specs.Line.{IsErrorOf, IsLineOf, ReadsGiven, ReadsLine, TellsGiven, TellsLine, TellsValues};
ghost use Rattle.arwen_cli_patchelf_lines.specs.Refusals.{is_asked as is_shrinking};
ghost use Rattle.arwen_cli_patchelf_lines.specs.Values.{AreResolved};

use crate::refusals::{Refused, is_asked, line_refusal};
use crate::values::{ValueCause, ValueRefused, resolved};
use arwen_cli_options::asked::last_of;
use arwen_cli_options::options::FILE;
use arwen_cli_options::tables::patchelf_options;
use arwen_cli_options::{AskedOption, Given, LineFault, parse_words};
use command_words::FileBytes;
use std::alloc::{AllocError, Global};

/// What a line of patchelf asks for.
#[derive(Drop)]
pub struct Line {
    /// Its options, with their values.
    pub asked: Vec<AskedOption>,
    /// Its files, in order.
    pub paths: Vec<String>,
    /// The file that is written in the place of the one that is named.
    pub output: Option<String>,
}

/// Why a line isn't done.
#[derive(Drop)]
pub enum LineError<'a> {
    /// Its words ask for help or the version, or one of them is wrong.
    Words(LineFault<'a>),
    /// What it asks for isn't done.
    Refused(Refused),
    /// A value wasn't read from its file.
    Value(ValueRefused<'a>),
    /// There was no memory.
    Memory,
}

impl From<AllocError> for LineError<'_> {
    ghost use Rattle.std.specs.Prelude.{◌≡◌};
    ghost use Rattle.arwen_cli_patchelf_lines.specs.declared.line.LineError.TheVariants.{Memory};

    ghost from_gives = { λ _ error. error ≡ Memory };

    fn from(_refused: AllocError) -> Self {
        LineError::Memory
    }
}

/// Reads a line, the words behind patchelf's name. Values that stand in files are read; else no file is looked at.
///
/// # Errors
///
/// The first of these: what the words say that is no line; an option that isn't there, no file or too many, options that
/// don't go with one another; a value that can't be read from its file.
pub fn read_line<'a, F: FileBytes>(
    alloc: Global,
    files: &F,
    words: &[&'a str],
) -> Result<Line, LineError<'a>>
    ensures reads { IfOk result (ReadsLine (F.contents files.now) (map (λ w. w.now) words.now)) }
    ensures refused { IfErr result (TellsLine (F.contents files.now) (F.may_fail files.now)
        (map (λ w. w.now) words.now)) }
{
    let given = given_of(alloc, words)?;
    let paths = paths_of(alloc, given.as_slice())?;
    if let Some(refused) = line_refusal(given.as_slice(), paths.as_slice()) {
        return Err(LineError::Refused(refused));
    }
    resolved_line(alloc, files, given.as_slice(), paths)
}

/// What words give.
fn given_of<'a>(alloc: Global, words: &[&'a str]) -> Result<Vec<Given<'a>>, LineError<'a>>
    ensures ok { IfOk result (λ given. words_give patchelf_known (map (λ w. w.now) words.now)
        ≡ Ok (map given_model given.items)) }
    ensures err { IfErr result (TellsGiven (map (λ w. w.now) words.now)) }
{
    match parse_words(alloc, patchelf_options(), words) {
        Ok(given) => Ok(given),
        Err(LineFault::Memory) => Err(LineError::Memory),
        Err(fault) => Err(LineError::Words(fault)),
    }
}

/// The files that are given.
fn paths_of(alloc: Global, given: &[Given<'_>]) -> Result<Vec<String>, AllocError>
    ensures { IfOk result (λ paths. map string_bytes paths.items
        ≡ values_given (codes "FILE") (map given_model given.now)) }
{
    let mut paths = Vec::new(alloc);
    for one in given {
        if one.name == FILE {
            paths.push(String::from_str(alloc, one.first)?)?;
        }
    }
    Ok(paths)
}

/// The line that gives this and names these files.
fn resolved_line<'a, F: FileBytes>(
    alloc: Global,
    files: &F,
    given: &[Given<'a>],
    paths: Vec<String>,
) -> Result<Line, LineError<'a>>
    ensures reads { IfOk result (ReadsGiven (F.contents files.now) (map given_model given.now)
        (map string_bytes paths.items)) }
    ensures refused { IfErr result
        (TellsValues (F.contents files.now) (F.may_fail files.now)
        (map given_model given.now)) }
{
    let asked = asked_of(alloc, files, given)?;
    Ok(line_of(alloc, asked, paths)?)
}

/// What options ask for with their values.
fn asked_of<'a, F: FileBytes>(
    alloc: Global,
    files: &F,
    given: &[Given<'a>],
) -> Result<Vec<AskedOption>, LineError<'a>>
    ensures ok { IfOk result (λ asked. AreResolved (F.contents files.now)
        (is_shrinking (codes "--shrink-rpath") (map given_model given.now))
        (map given_model given.now) (map asked_model asked.items)) }
    ensures err { IfErr result (TellsValues (F.contents files.now) (F.may_fail files.now)
        (map given_model given.now)) }
{
    let shrinks = is_asked(given, "--shrink-rpath");
    match resolved(alloc, files, given, shrinks) {
        Ok(asked) => Ok(asked),
        Err(refused) => Err(value_error(refused)),
    }
}

/// The error of a value that wasn't read.
fn value_error(refused: ValueRefused<'_>) -> LineError<'_>
    ensures { IsErrorOf refused.entry result }
{
    match refused.cause {
        ValueCause::Memory => LineError::Memory,
        cause => LineError::Value(ValueRefused {
            option: refused.option,
            path: refused.path,
            cause,
        }),
    }
}

/// The line of options with their values, and of files.
fn line_of(alloc: Global, asked: Vec<AskedOption>, paths: Vec<String>) -> Result<Line, AllocError>
    ensures { IfOk result
        (IsLineOf (map string_bytes paths.items) (map asked_model asked.items)) }
{
    let output = last_of(alloc, asked.as_slice(), "--output")?;
    Ok(Line {
        asked,
        paths,
        output,
    })
}
