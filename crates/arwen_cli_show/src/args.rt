//! What the words of a line behind `show` ask for.
ghost use Rattle.std.specs.Prelude.{◌≡◌, IfErr, IfOk, map, option_map, string_bytes};
ghost use Rattle.arwen_cli_show.specs.Args.{IsFaultOf, meaning_of_args, args_model, asks_json as json_asked, fault_with, is_help as asks_help, is_json as names_json, is_mark as marks_paths, is_option as is_option_word, other_option as other_found, paths_given, status_told, style_if};
ghost use Rattle.arwen_cli_show.specs.declared.args.ArgsFault.TheVariants.{Memory};

use crate::show::Style;
use std::alloc::{AllocError, Global};
use std::fmt;

/// What is printed where words ask for help.
pub const HELP: &str = "Tell what files are, and what they ask of a loader

Usage: arwen show [OPTIONS] <FILE>...

Arguments:
  <FILE>...  Paths to the files

Options:
      --json  Tell of each file in one line of JSON
  -h, --help  Print help

Example:
  arwen show --json libgreet.so libgreet.dylib
";

/// The end of what is said of words that are wrong.
const USAGE: &str =
    "Usage: arwen show [OPTIONS] <FILE>...\n\nFor more information, try '--help'.\n";

/// What `show` is asked for.
#[derive(Debug, Drop)]
pub struct Args {
    /// The paths of the files, in the order in which they are told of.
    pub paths: Vec<String>,
    /// How the files are told of.
    pub style: Style,
}

/// Why words ask for no file to be shown.
#[derive(Clone, Copy)]
pub enum ArgsFault<'a> {
    /// The words ask for help.
    Help,
    /// The words have an option that isn't known.
    Unknown(&'a str),
    /// The words name no file.
    NoPath,
    /// There was no memory.
    Memory,
}

impl ArgsFault<'_> {
    /// The status that the program ends with.
    pub fn status(&self) -> u8
        ensures { result ≡ status_told self.now }
    {
        match self {
            ArgsFault::Help => 0,
            ArgsFault::Memory => 1,
            ArgsFault::Unknown(_) | ArgsFault::NoPath => 2,
        }
    }
}

impl fmt::Display for ArgsFault<'_> {
    fn fmt<W: fmt::Write>(&self, f: &mut fmt::Formatter<W>) -> fmt::Result {
        match self {
            ArgsFault::Help => f.write_str(HELP),
            ArgsFault::Unknown(word) => {
                write!(f, "error: unexpected argument '{word}' found\n\n{USAGE}")
            }
            ArgsFault::NoPath => {
                let missing = "the following required arguments were not provided:\n  <FILE>...";
                write!(f, "error: {missing}\n\n{USAGE}")
            }
            ArgsFault::Memory => f.write_str("out of memory"),
        }
    }
}

impl From<AllocError> for ArgsFault<'_> {
    ghost from_gives = { λ _ fault. fault ≡ Memory };

    fn from(_refused: AllocError) -> Self {
        ArgsFault::Memory
    }
}

/// What the words of a line behind `show` ask for: paths, and the option `--json` anywhere before a word `--`, behind which
/// all words are paths. A word that is a hyphen alone is a path. Of words that ask for help or are no known option the first
/// is answered, before it is looked whether a file is named.
pub fn parse_args<'a>(alloc: Global, words: &[&'a str]) -> Result<Args, ArgsFault<'a>>
    ensures means { IfOk result (λ args.
        meaning_of_args (map (λ w. w.now) words.now) ≡ Some (args_model args)) }
    ensures refused { IfErr result (IsFaultOf (map (λ w. w.now) words.now)) }
{
    if let Some(word) = other_option(words) {
        return Err(option_fault(word));
    }
    let paths = paths_of(alloc, words)?;
    match paths.first() {
        None => Err(ArgsFault::NoPath),
        Some(_) => Ok(Args {
            paths,
            style: style_of(words),
        }),
    }
}

/// What an option says that isn't `--json`.
fn option_fault(word: &str) -> ArgsFault<'_>
    ensures { result ≡ fault_with word.entry }
{
    if is_help(word) {
        ArgsFault::Help
    } else {
        ArgsFault::Unknown(word)
    }
}

/// The first word that is an option and not `--json`.
fn other_option<'a>(words: &[&'a str]) -> Option<&'a str>
    ensures { option_map (λ w. w.now) result ≡ other_found (map (λ w. w.now) words.now) }
{
    for word in words {
        if is_mark(word) {
            return None;
        }
        if is_option(word) && !is_json(word) {
            return Some(*word);
        }
    }
    None
}

/// The words that are paths.
fn paths_of(alloc: Global, words: &[&str]) -> Result<Vec<String>, AllocError>
    ensures { IfOk result (λ paths.
        map string_bytes paths.items ≡ paths_given (map (λ w. w.now) words.now)) }
{
    let mut paths = Vec::new(alloc);
    let mut is_open = true;
    for word in words {
        if is_open && is_mark(word) {
            is_open = false;
            continue;
        }
        if is_open && is_option(word) {
            continue;
        }
        paths.push(String::from_str(alloc, *word)?)?;
    }
    Ok(paths)
}

/// How words ask for files to be told of.
fn style_of(words: &[&str]) -> Style
    ensures { result ≡ style_if (json_asked (map (λ w. w.now) words.now)) }
{
    for word in words {
        if is_mark(word) {
            return Style::Lines;
        }
        if is_json(word) {
            return Style::Json;
        }
    }
    Style::Lines
}

/// Whether a word is the one behind which all are paths.
fn is_mark(word: &str) -> bool
    ensures { result ≡ marks_paths word.now }
{
    word == "--"
}

/// Whether a word asks for JSON.
fn is_json(word: &str) -> bool
    ensures { result ≡ names_json word.now }
{
    word == "--json"
}

/// Whether a word asks for help.
fn is_help(word: &str) -> bool
    ensures { result ≡ asks_help word.now }
{
    word == "-h" || word == "--help"
}

/// Whether a word is an option: it begins with a hyphen, and has more than that.
fn is_option(word: &str) -> bool
    ensures { result ≡ is_option_word word.now }
{
    let bytes = word.as_bytes();
    bytes.len() > 1 && bytes[0] == b'-'
}
