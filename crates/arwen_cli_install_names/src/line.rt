//! Lines of install_name_tool, read.
ghost use Rattle.std.specs.Prelude.{◌≡◌, IfErr, IfOk, map};
ghost use Rattle.arwen_cli_options.specs.Options.{given_model};
ghost use Rattle.arwen_cli_install_names.specs.Line.{IsNameLine, ReadsNames, TellsNames, TellsRefusal, file_given, path_told};

use arwen_cli_options::options::FILE;
use arwen_cli_options::tables::install_name_tool_options;
use arwen_cli_options::{Given, LineFault, parse_words};
use std::alloc::Global;

/// What a line of install_name_tool asks for.
#[derive(Drop)]
pub struct NameLine<'a> {
    /// What it gives, in order.
    pub given: Vec<Given<'a>>,
    /// Its file.
    pub path: &'a str,
}

/// Why a line isn't done.
#[derive(Clone, Copy)]
pub enum NameRefused {
    /// No file is named.
    NoFile,
    /// More than one file is named.
    SeveralFiles,
}

/// Why a line isn't done.
#[derive(Clone, Copy)]
pub enum NameLineError<'a> {
    /// Its words ask for help or the version, or one of them is wrong; or there was no memory.
    Words(LineFault<'a>),
    /// What it asks for isn't done.
    Refused(NameRefused),
}

/// Reads a line, the words behind install_name_tool's name. No file is looked at.
///
/// # Errors
///
/// The first of these: what the words say that is no line; no file, or more than one.
pub fn read_name_line<'a>(
    alloc: Global,
    words: &[&'a str],
) -> Result<NameLine<'a>, NameLineError<'a>>
    ensures reads { IfOk result (ReadsNames (map (λ w. w.now) words.now)) }
    ensures refused { IfErr result (TellsNames (map (λ w. w.now) words.now)) }
{
    match parse_words(alloc, install_name_tool_options(), words) {
        Ok(given) => line_of(given),
        Err(fault) => Err(NameLineError::Words(fault)),
    }
}

/// The line that gives this.
fn line_of<'a>(given: Vec<Given<'a>>) -> Result<NameLine<'a>, NameLineError<'a>>
    ensures reads { IfOk result (IsNameLine (map given_model given.entry.items)) }
    ensures refused { IfErr result (TellsRefusal (map given_model given.entry.items)) }
{
    let path = file_in(given.as_slice());
    match path {
        Ok(path) => Ok(NameLine { given, path }),
        Err(refused) => Err(NameLineError::Refused(refused)),
    }
}

/// The one file that is given.
fn file_in<'a>(given: &[Given<'a>]) -> Result<&'a str, NameRefused>
    ensures { path_told result ≡ file_given (map given_model given.now) }
{
    let mut found = None;
    for one in given {
        if one.name == FILE {
            if found.is_some() {
                return Err(NameRefused::SeveralFiles);
            }
            found = Some(one.first);
        }
    }
    match found {
        Some(path) => Ok(path),
        None => Err(NameRefused::NoFile),
    }
}
