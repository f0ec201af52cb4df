//! Values of options that stand in files.
ghost use Rattle.std.specs.Prelude.{◌≡◌, ◌++◌, ◌∷◌, [], IfErr, IfOk, OnOk, map, string_bytes};
ghost use Rattle.std.specs.Str.{IsUtf8};
ghost use Rattle.arwen_cli_options.specs.Asked.{asked_model};
ghost use Rattle.arwen_cli_options.specs.Options.{given_model};
ghost use Rattle.arwen_cli_patchelf_lines.specs.NameMaps.{lent_pair};
ghost use Rattle.arwen_cli_patchelf_lines.specs.Values.{ArePut, AreResolved, IsMapText, IsPut, IsPutFrom, IsRefusedAmong, IsRefusedOf, IsUnreadFrom, TellsWrongMap, abi_asked, abi_by, first_asked, first_replaced, is_passed_over as is_passed, is_run_path as sets_run_path, path_from, path_named, rename_asked, source_of as source_by, takes_file as may_stand_in_file};
ghost use Rattle.arwen_cli_patchelf_lines.specs.declared.values.Source.TheVariants.{File, NameMap};
ghost use Rattle.arwen_cli_patchelf_lines.specs.declared.values.ValueCause.TheVariants.{NotText};

use crate::name_maps::{MapFault, MapWrong, NamePair, pairs_in, spaced};
use arwen_cli_options::{AskedOption, Given};
use byte_store::ReadError;
use command_words::FileBytes;
use std::alloc::{AllocError, AllocFailed, Global};
use std::io;

/// Why a value wasn't read from a file.
#[derive(Drop)]
pub enum ValueCause {
    /// The file can't be read.
    Io(io::Error),
    /// It is no text.
    NotText,
    /// A line of a map of names, counted from 1, is wrong.
    Map(MapWrong, usize),
    /// There was no memory.
    Memory,
}

impl From<AllocError> for ValueCause {
    ghost use Rattle.std.specs.Prelude.{◌≡◌};
    ghost use Rattle.arwen_cli_patchelf_lines.specs.declared.values.ValueCause.TheVariants.{Memory};

    ghost from_gives = { λ _ cause. cause ≡ Memory };

    fn from(_refused: AllocError) -> Self {
        ValueCause::Memory
    }
}

impl<T: Drop> From<AllocFailed<T>> for ValueCause {
    ghost use Rattle.std.specs.Prelude.{◌≡◌};
    ghost use Rattle.arwen_cli_patchelf_lines.specs.declared.values.ValueCause.TheVariants.{Memory};

    ghost from_gives = { λ _ cause. cause ≡ Memory };

    fn from(_refused: AllocFailed<T>) -> Self {
        ValueCause::Memory
    }
}

impl From<ReadError> for ValueCause {
    ghost use Rattle.std.specs.Prelude.{◌≡◌};
    ghost use Rattle.arwen_cli_patchelf_lines.specs.Causes.{cause_of_read};

    ghost from_gives = { λ error cause. cause ≡ cause_of_read error };

    fn from(error: ReadError) -> Self {
        match error {
            ReadError::Memory => ValueCause::Memory,
            ReadError::Io(error) => ValueCause::Io(error),
        }
    }
}

impl From<MapFault> for ValueCause {
    ghost use Rattle.std.specs.Prelude.{◌≡◌};
    ghost use Rattle.arwen_cli_patchelf_lines.specs.Causes.{cause_of_map};

    ghost from_gives = { λ fault cause. cause ≡ cause_of_map fault };

    fn from(fault: MapFault) -> Self {
        match fault {
            MapFault::Memory => ValueCause::Memory,
            MapFault::Line(wrong, line) => ValueCause::Map(wrong, line),
        }
    }
}

/// A value that wasn't read from a file.
#[derive(Drop)]
pub struct ValueRefused<'a> {
    /// The option's name.
    pub option: &'static str,
    /// The path of the file.
    pub path: &'a str,
    /// Why.
    pub cause: ValueCause,
}

/// Where the value of an option stands.
#[derive(Clone, Copy)]
pub(crate) enum Source {
    /// The option is passed over.
    Nowhere,
    /// On the line.
    Line,
    /// In a file that the line names.
    File,
    /// In a file of pairs of names.
    NameMap,
}

/// What a line asks for that gives this, with the values that stand in files.
pub(crate) fn resolved<'a, F: FileBytes>(
    alloc: Global,
    files: &F,
    given: &[Given<'a>],
    shrinks: bool,
) -> Result<Vec<AskedOption>, ValueRefused<'a>>
    ensures ok { IfOk result (λ asked. AreResolved (F.contents files.now) shrinks
        (map given_model given.now) (map asked_model asked.items)) }
    ensures err { IfErr result
        (IsRefusedAmong (F.contents files.now) (F.may_fail files.now) shrinks
        (map given_model given.now)) }
{
    let mut asked = Vec::new(alloc);
    for one in given {
        put_one(alloc, files, one, shrinks, &mut asked)?;
    }
    Ok(asked)
}

/// Puts what an option asks for behind others, or tells which option it is whose value wasn't read.
fn put_one<'a, F: FileBytes>(
    alloc: Global,
    files: &F,
    one: &Given<'a>,
    shrinks: bool,
    asked: &mut Vec<AskedOption>,
) -> Result<(), ValueRefused<'a>>
    ensures ok { OnOk result (IsPut (F.contents files.now) shrinks (given_model one.now)
        (map asked_model asked.old.items) (map asked_model asked.new.items)) }
    ensures err { IfErr result
        (IsRefusedOf (F.contents files.now) (F.may_fail files.now) shrinks
        (given_model one.now)) }
{
    let source = source_of(one, shrinks);
    match put_resolved(alloc, files, one, source, asked) {
        Ok(()) => Ok(()),
        Err(cause) => Err(ValueRefused {
            option: one.name,
            path: path_of(one.first, source),
            cause,
        }),
    }
}

/// The path of the file in which a value stands.
fn path_of(first: &str, source: Source) -> &str
    ensures { result.now ≡ path_from source first.entry.now }
{
    match source {
        Source::NameMap => first,
        _ => file_named(first),
    }
}

/// The path of the file that a value names behind its `@`; all of it where it names none.
fn file_named(value: &str) -> &str
    ensures { result.now ≡ path_named value.entry.now }
{
    match value.split_once('@') {
        Some((_, path)) => path,
        None => value,
    }
}

/// Puts what an option asks for, whose value stands there, behind others.
fn put_resolved<'a, F: FileBytes>(
    alloc: Global,
    files: &F,
    one: &Given<'a>,
    source: Source,
    asked: &mut Vec<AskedOption>,
) -> Result<(), ValueCause>
    ensures ok { OnOk result (IsPutFrom source (F.contents files.now) (given_model one.now)
        (map asked_model asked.old.items) (map asked_model asked.new.items)) }
    ensures err { IfErr result
        (IsUnreadFrom source (F.contents files.now) (F.may_fail files.now)
        (given_model one.now)) }
{
    match source {
        Source::Nowhere => Ok(()),
        Source::Line => Ok(put_settled(alloc, one, one.first, asked)?),
        Source::File => put_read(alloc, files, one, asked),
        Source::NameMap => put_pairs(alloc, files, one, asked),
    }
}

/// Where the value of an option stands, of a line that lets the run path shrink or not.
fn source_of(one: &Given<'_>, shrinks: bool) -> Source
    ensures { result ≡ source_by shrinks (given_model one.now) }
{
    if is_passed_over(one, shrinks) {
        return Source::Nowhere;
    }
    if one.name == "--rename-dynamic-symbols" {
        return Source::NameMap;
    }
    if takes_file(one.name) && one.first.as_bytes().first() == Some(&b'@') {
        return Source::File;
    }
    Source::Line
}

/// Whether an option asks for nothing: a run path is neither set nor added to nor removed where it shrinks, an interpreter
/// without a name is none, and what is added is aligned by the file's machine.
fn is_passed_over(one: &Given<'_>, shrinks: bool) -> bool
    ensures { result ≡ is_passed shrinks (given_model one.now) }
{
    if one.name == "--set-interpreter" {
        return one.first.is_empty();
    }
    one.name == "--page-size" || (shrinks && is_run_path(one.name))
}

/// Whether an option sets, removes or adds to the run path.
fn is_run_path(name: &str) -> bool
    ensures { result ≡ sets_run_path name.now }
{
    name == "--remove-rpath" || name == "--set-rpath" || name == "--add-rpath"
}

/// Whether the value of an option may stand in a file, which is named behind a `@`.
#[tactic(auto, unfolding(crate::specs::Values::takes_file))]
fn takes_file(name: &str) -> bool
    ensures { result ≡ may_stand_in_file name.now }
{
    match name {
        "--set-interpreter"
        | "--set-os-abi"
        | "--set-soname"
        | "--set-rpath"
        | "--add-rpath"
        | "--add-needed"
        | "--remove-needed"
        | "--clear-symbol-version"
        | "--output" => true,
        _ => false,
    }
}

/// Puts an option with this as its first value behind others.
fn put_settled(
    alloc: Global,
    one: &Given<'_>,
    first: &str,
    asked: &mut Vec<AskedOption>,
) -> Result<(), AllocError>
    ensures { OnOk result (map asked_model asked.new.items ≡ map asked_model asked.old.items
        ++ first_replaced (given_model one.now) first.now ∷ []) }
{
    let first = first_of(alloc, one.name, first)?;
    put_option(alloc, one.name, first, one.second, asked)
}

/// Puts an option with these values behind others.
fn put_option(
    alloc: Global,
    name: &'static str,
    first: String,
    second: &str,
    asked: &mut Vec<AskedOption>,
) -> Result<(), AllocError>
    ensures { OnOk result (map asked_model asked.new.items ≡ map asked_model asked.old.items
        ++ (record { name = name.now; first = string_bytes first; second = second.now }) ∷ []) }
{
    let second = String::from_str(alloc, second)?;
    asked.push(AskedOption {
        name,
        first,
        second,
    })?;
    Ok(())
}

/// The first value of an option by its name: an ABI goes by the name that it has here.
fn first_of(alloc: Global, name: &str, first: &str) -> Result<String, AllocError>
    ensures { IfOk result (λ text. string_bytes text ≡ first_asked name.now first.now) }
{
    if name == "--set-os-abi" {
        abi_name(alloc, first)
    } else {
        String::from_str(alloc, first)
    }
}

/// The name that an ABI has here, by one that patchelf knows in letters of either case, with white space around it or not.
fn abi_name(alloc: Global, name: &str) -> Result<String, AllocError>
    ensures { IfOk result (λ here. string_bytes here ≡ abi_asked name.now) }
{
    let small = name.trim().to_ascii_lowercase(alloc)?;
    String::from_str(alloc, abi_here(small.as_str()))
}

/// The name that an ABI has here, by one that patchelf knows in small letters.
#[tactic(auto, unfolding(crate::specs::Values::abi_by))]
fn abi_here(small: &str) -> &str
    ensures { result.now ≡ abi_by small.entry.now }
{
    match small {
        "system v" | "system-v" => "sysv",
        "hp-ux" => "hpux",
        "gnu" => "linux",
        "gnu hurd" | "gnu-hurd" => "hurd",
        other => other,
    }
}

/// Puts an option whose value stands in a file behind others.
fn put_read<'a, F: FileBytes>(
    alloc: Global,
    files: &F,
    one: &Given<'a>,
    asked: &mut Vec<AskedOption>,
) -> Result<(), ValueCause>
    ensures ok { OnOk result (IsPutFrom File (F.contents files.now) (given_model one.now)
        (map asked_model asked.old.items) (map asked_model asked.new.items)) }
    ensures err { IfErr result
        (IsUnreadFrom File (F.contents files.now) (F.may_fail files.now)
        (given_model one.now)) }
{
    let bytes = files.bytes(alloc, file_named(one.first))?;
    let text = text_of(bytes)?;
    Ok(put_settled(alloc, one, text.as_str(), asked)?)
}

/// Bytes as a text.
fn text_of(bytes: Vec<u8>) -> Result<String, ValueCause>
    ensures ok { IfOk result (λ text. string_bytes text ≡ bytes.items) }
    ensures err { IfErr result (λ cause. cause ≡ NotText) }
    ensures never { IfErr result (λ _. IsUtf8 bytes.items → ⊥) }
{
    match String::from_utf8(bytes) {
        Ok(text) => Ok(text),
        Err(_) => Err(ValueCause::NotText),
    }
}

/// Puts an option for each pair of a map of names behind others.
fn put_pairs<'a, F: FileBytes>(
    alloc: Global,
    files: &F,
    one: &Given<'a>,
    asked: &mut Vec<AskedOption>,
) -> Result<(), ValueCause>
    ensures ok { OnOk result (IsPutFrom NameMap (F.contents files.now) (given_model one.now)
        (map asked_model asked.old.items) (map asked_model asked.new.items)) }
    ensures err { IfErr result
        (IsUnreadFrom NameMap (F.contents files.now) (F.may_fail files.now)
        (given_model one.now)) }
{
    let text = map_text(alloc, files, one)?;
    put_mapped(alloc, one.name, text.as_str(), asked)
}

/// The text of a map of names, with a space in the place of each tab.
fn map_text<F: FileBytes>(alloc: Global, files: &F, one: &Given<'_>) -> Result<String, ValueCause>
    ensures ok { IfOk result (λ text.
        IsMapText (F.contents files.now one.now.first.now) (string_bytes text)) }
    ensures err { IfErr result
        (IsUnreadFrom NameMap (F.contents files.now) (F.may_fail files.now)
        (given_model one.now)) }
{
    let bytes = files.bytes(alloc, one.first)?;
    text_of(spaced(alloc, bytes.as_slice())?)
}

/// Puts an option of this name for each pair of a map of names with this text behind others.
fn put_mapped(
    alloc: Global,
    name: &'static str,
    text: &str,
    asked: &mut Vec<AskedOption>,
) -> Result<(), ValueCause>
    ensures ok { OnOk result (ArePut name.now text.now
        (map asked_model asked.old.items) (map asked_model asked.new.items)) }
    ensures err { IfErr result (TellsWrongMap text.now) }
{
    let pairs = pairs_in(alloc, text)?;
    Ok(put_renames(alloc, name, pairs.as_slice(), asked)?)
}

/// Puts an option of this name for each pair behind others.
fn put_renames(
    alloc: Global,
    name: &'static str,
    pairs: &[NamePair<'_>],
    asked: &mut Vec<AskedOption>,
) -> Result<(), AllocError>
    ensures { OnOk result (map asked_model asked.new.items ≡ map asked_model asked.old.items
        ++ map (rename_asked name.now) (map lent_pair pairs.now)) }
{
    for pair in pairs {
        put_rename(alloc, name, pair, asked)?;
    }
    Ok(())
}

/// Puts an option of this name for a pair behind others.
fn put_rename(
    alloc: Global,
    name: &'static str,
    pair: &NamePair<'_>,
    asked: &mut Vec<AskedOption>,
) -> Result<(), AllocError>
    ensures { OnOk result (map asked_model asked.new.items ≡ map asked_model asked.old.items
        ++ rename_asked name.now (lent_pair pair.now) ∷ []) }
{
    let first = String::from_str(alloc, pair.old)?;
    put_option(alloc, name, first, pair.new, asked)
}
