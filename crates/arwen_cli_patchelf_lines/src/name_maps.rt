//! Maps of names: texts with a pair of names on each line, an old one and a new one.
ghost use Rattle.std.specs.Prelude.{◌≡◌, [], Ok, IfErr, IfOk, OnOk, map, option_map};
ghost use Rattle.std.specs.Str.Lines.{lines};
ghost use Rattle.arwen_cli_patchelf_lines.specs.NameMaps.{TellsMap, checked as checked_pair, has_version as names_version, is_old as is_old_name, lent_pair, names_of, pair_of, pair_told, pairs_from, pairs_of, spaced as space_for, spaced_all};
ghost use Rattle.command_words.specs.Parts.{texts_lent};

use command_words::filled_parts;
use std::alloc::{AllocError, AllocFailed, Global};

/// A pair of names.
#[derive(Clone, Copy)]
pub struct NamePair<'t> {
    /// The old name.
    pub old: &'t str,
    /// The new one.
    pub new: &'t str,
}

/// What is wrong with a line of a map.
#[derive(Clone, Copy, PartialEq, Eq)]
pub enum MapWrong {
    /// It has one name alone.
    OneName,
    /// Its old name stands on a line before.
    Twice,
    /// A name has a version behind it.
    Version,
}

/// Why a map isn't read.
#[derive(Clone, Copy)]
pub enum MapFault {
    /// A line of this number, counted from 1, is wrong.
    Line(MapWrong, usize),
    /// There was no memory.
    Memory,
}

impl From<AllocError> for MapFault {
    ghost use Rattle.std.specs.Prelude.{◌≡◌};
    ghost use Rattle.arwen_cli_patchelf_lines.specs.declared.name_maps.MapFault.TheVariants.{Memory};

    ghost from_gives = { λ _ fault. fault ≡ Memory };

    fn from(_refused: AllocError) -> Self {
        MapFault::Memory
    }
}

impl<T: Drop> From<AllocFailed<T>> for MapFault {
    ghost use Rattle.std.specs.Prelude.{◌≡◌};
    ghost use Rattle.arwen_cli_patchelf_lines.specs.declared.name_maps.MapFault.TheVariants.{Memory};

    ghost from_gives = { λ _ fault. fault ≡ Memory };

    fn from(_refused: AllocFailed<T>) -> Self {
        MapFault::Memory
    }
}

/// Bytes with a space in the place of each tab.
pub(crate) fn spaced(alloc: Global, bytes: &[u8]) -> Result<Vec<u8>, AllocError>
    ensures { IfOk result (λ made. made.items ≡ spaced_all bytes.now) }
{
    let mut made = Vec::with_capacity(alloc, bytes.len())?;
    for byte in bytes {
        made.push(space_of(*byte))?;
    }
    Ok(made)
}

/// A byte, or a space in the place of a tab.
fn space_of(byte: u8) -> u8
    ensures { result ≡ space_for byte }
{
    if byte == b'\t' { b' ' } else { byte }
}

/// The pairs of a map's lines, up to the first that has no name.
pub(crate) fn pairs_in<'t>(alloc: Global, text: &'t str) -> Result<Vec<NamePair<'t>>, MapFault>
    ensures ok { IfOk result (λ pairs. pairs_of text.now ≡ Ok (map lent_pair pairs.items)) }
    ensures err { IfErr result (TellsMap (pairs_of text.now)) }
{
    let lines = lines_in(alloc, text)?;
    pairs_on(alloc, lines.as_slice())
}

/// The same of its lines.
fn pairs_on<'t>(alloc: Global, lines: &[&'t str]) -> Result<Vec<NamePair<'t>>, MapFault>
    ensures ok { IfOk result (λ pairs.
        pairs_from [] 1 (texts_lent lines.now) ≡ Ok (map lent_pair pairs.items)) }
    ensures err { IfErr result (TellsMap (pairs_from [] 1 (texts_lent lines.now))) }
{
    let mut pairs = Vec::new(alloc);
    put_pairs(alloc, lines, &mut pairs)?;
    Ok(pairs)
}

/// Puts the pairs of a map's lines behind others, up to the first line that has no name.
fn put_pairs<'t>(
    alloc: Global,
    lines: &[&'t str],
    pairs: &mut Vec<NamePair<'t>>,
) -> Result<(), MapFault>
    ensures ok { OnOk result (pairs_from (map lent_pair pairs.old.items) 1 (texts_lent lines.now)
        ≡ Ok (map lent_pair pairs.new.items)) }
    ensures err { IfErr result
        (TellsMap (pairs_from (map lent_pair pairs.old.items) 1 (texts_lent lines.now))) }
{
    for (i, line) in lines.iter().enumerate() {
        match pair_in(alloc, *line, pairs.as_slice())? {
            None => return Ok(()),
            Some(Ok(pair)) => pairs.push(pair)?,
            Some(Err(wrong)) => return Err(MapFault::Line(wrong, i + 1)),
        }
    }
    Ok(())
}

/// The lines of a text.
fn lines_in<'t>(alloc: Global, text: &'t str) -> Result<Vec<&'t str>, AllocError>
    ensures { IfOk result (λ made. texts_lent made.items ≡ lines text.now) }
{
    let mut made = Vec::new(alloc);
    for line in text.lines() {
        made.push(line)?;
    }
    Ok(made)
}

/// The pair of names on a line, behind lines with these pairs, or what is wrong with it; `None` where it has no name.
fn pair_in<'t>(
    alloc: Global,
    line: &'t str,
    pairs: &[NamePair<'t>],
) -> Result<Option<Result<NamePair<'t>, MapWrong>>, AllocError>
    ensures { IfOk result (λ found. option_map pair_told found
        ≡ pair_of (map lent_pair pairs.now) (names_of line.now)) }
{
    let names = names_in(alloc, line)?;
    Ok(match names.as_slice() {
        [] => None,
        [_] => Some(Err(MapWrong::OneName)),
        [old, new, ..] => Some(checked(*old, *new, pairs)),
    })
}

/// A pair of names behind others, or what is wrong with it.
fn checked<'t>(old: &'t str, new: &'t str, pairs: &[NamePair<'t>]) -> Result<NamePair<'t>, MapWrong>
    ensures { pair_told result
        ≡ checked_pair (map lent_pair pairs.now) old.entry.now new.entry.now }
{
    if is_old(old, pairs) {
        return Err(MapWrong::Twice);
    }
    if has_version(old) || has_version(new) {
        return Err(MapWrong::Version);
    }
    Ok(NamePair { old, new })
}

/// Whether a name is the old one of a pair.
fn is_old(name: &str, pairs: &[NamePair<'_>]) -> bool
    ensures { result ≡ is_old_name name.now (map lent_pair pairs.now) }
{
    for pair in pairs {
        if pair.old == name {
            return true;
        }
    }
    false
}

/// Whether a name has a version behind it.
fn has_version(name: &str) -> bool
    ensures { result ≡ names_version name.now }
{
    for byte in name.as_bytes() {
        if *byte == b'@' {
            return true;
        }
    }
    false
}

/// The names on a line, between its spaces.
fn names_in<'t>(alloc: Global, line: &'t str) -> Result<Vec<&'t str>, AllocError>
    ensures { IfOk result (λ names. texts_lent names.items ≡ names_of line.now) }
{
    filled_parts(alloc, line, ' ')
}
