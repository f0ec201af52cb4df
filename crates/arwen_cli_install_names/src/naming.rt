//! What options mean of the bytes of a file.
ghost use Rattle.std.specs.Prelude.{◌≡◌, ◌↔◌, IfErr, IfOk, IsTrue, map, string_bytes};
ghost use Rattle.std.specs.Str.Lossy.{utf8_lossy};
ghost use Rattle.arwen_macho.specs.FatSlice.{slice_model};
ghost use Rattle.macho_edits.specs.Batch.{calls_of};
ghost use Rattle.macho_edits.specs.State.{laid_bytes};
ghost use Rattle.macho_image.specs.Commands.{libs_of, rpaths_of};
ghost use Rattle.arwen_cli_options.specs.Options.{given_model};
ghost use Rattle.arwen_cli_install_names.specs.NameEdits.{names_model};
ghost use Rattle.arwen_cli_install_names.specs.Naming.{AreCalls, AreCallsOf, AreCallsOfAll, TellsPartsUnnamed, TellsUnnamed, calls_in, names_in, parts_of, slice_bytes};

use crate::equal_edits::are_equal;
use crate::name_edits::{Names, name_edits};
use arwen_cli_options::Given;
use arwen_macho::macho::{
    FatMacho, MachO, MachoContainer, MachoEdit, MachoError, MachoType, SingleMachO,
};
use macho_commands::MachoCommandError;
use std::alloc::{AllocError, AllocFailed, Global};

/// Why it isn't known what options mean of a file.
#[derive(Drop)]
pub enum NamingFault {
    /// The file isn't read.
    Command(MachoCommandError),
    /// Its slices need unlike edits.
    Unlike,
}

impl From<MachoError> for NamingFault {
    ghost use Rattle.std.specs.Prelude.{◌≡◌};
    ghost use Rattle.macho_commands.specs.Errors.{answer_to};
    ghost use Rattle.arwen_cli_install_names.specs.declared.naming.NamingFault.TheVariants.{Command};

    ghost from_gives = { λ cause fault. fault ≡ Command (answer_to cause) };

    fn from(error: MachoError) -> Self {
        NamingFault::Command(MachoCommandError::from(error))
    }
}

impl From<AllocError> for NamingFault {
    ghost use Rattle.std.specs.Prelude.{◌≡◌};
    ghost use Rattle.macho_commands.specs.declared.error.MachoCommandError.TheVariants.{Memory};
    ghost use Rattle.arwen_cli_install_names.specs.declared.naming.NamingFault.TheVariants.{Command};

    ghost from_gives = { λ _ fault. fault ≡ Command Memory };

    fn from(_refused: AllocError) -> Self {
        NamingFault::Command(MachoCommandError::Memory)
    }
}

impl<T: Drop> From<AllocFailed<T>> for NamingFault {
    ghost use Rattle.std.specs.Prelude.{◌≡◌};
    ghost use Rattle.macho_commands.specs.declared.error.MachoCommandError.TheVariants.{Memory};
    ghost use Rattle.arwen_cli_install_names.specs.declared.naming.NamingFault.TheVariants.{Command};

    ghost from_gives = { λ _ fault. fault ≡ Command Memory };

    fn from(_refused: AllocFailed<T>) -> Self {
        NamingFault::Command(MachoCommandError::Memory)
    }
}

/// The edits that options mean of the bytes of a file: of each slice the same.
///
/// # Errors
///
/// What is found wrong in a file that isn't read, `Unlike` where no edits are those of all slices, and `Memory`.
pub fn edits_for(
    alloc: Global,
    bytes: &[u8],
    given: &[Given<'_>],
) -> Result<Vec<MachoEdit>, NamingFault>
    ensures ok { IfOk result (λ edits. AreCallsOf (map given_model given.now) bytes.now
        (calls_of edits.items)) }
    ensures err { IfErr result (TellsUnnamed (map given_model given.now) bytes.now) }
{
    let file = MachoContainer::parse(alloc, bytes)?;
    let edits = edits_in(alloc, file.inner(), given);
    drop(file);
    edits
}

/// The same of a file that was read.
fn edits_in(
    alloc: Global,
    file: &MachoType<'_>,
    given: &[Given<'_>],
) -> Result<Vec<MachoEdit>, NamingFault>
    ensures ok { IfOk result (λ edits. AreCallsOfAll (map given_model given.now) (parts_of file.now)
        (calls_of edits.items)) }
    ensures err { IfErr result (TellsPartsUnnamed (map given_model given.now) (parts_of file.now)) }
{
    match file {
        MachoType::SingleArch(single) => Ok(edits_of(alloc, single.inner(), given)?),
        MachoType::Fat(fat) => edits_of_slices(alloc, fat.archs(), given),
    }
}

/// The edits that options mean of each of these slices.
fn edits_of_slices(
    alloc: Global,
    slices: &[FatMacho<'_>],
    given: &[Given<'_>],
) -> Result<Vec<MachoEdit>, NamingFault>
    ensures ok { IfOk result (λ edits. AreCallsOfAll (map given_model given.now)
        (map slice_bytes (map slice_model slices.now)) (calls_of edits.items)) }
    ensures err { IfErr result (TellsPartsUnnamed (map given_model given.now)
        (map slice_bytes (map slice_model slices.now))) }
{
    let Some(first) = slices.first() else {
        return Ok(Vec::new(alloc));
    };
    let edits = edits_of(alloc, first.inner().inner(), given)?;
    match are_edits_of(alloc, slices, given, edits.as_slice()) {
        Ok(true) => Ok(edits),
        Ok(false) => Err(NamingFault::Unlike),
        Err(refused) => Err(NamingFault::from(refused)),
    }
}

/// Whether options mean these edits of each of these slices.
fn are_edits_of(
    alloc: Global,
    slices: &[FatMacho<'_>],
    given: &[Given<'_>],
    edits: &[MachoEdit],
) -> Result<bool, AllocError>
    ensures { IfOk result (λ same. IsTrue same ↔ AreCalls (map given_model given.now)
        (map slice_bytes (map slice_model slices.now)) (calls_of edits.now)) }
{
    for slice in slices {
        if !same_edits(alloc, slice.inner(), given, edits)? {
            return Ok(false);
        }
    }
    Ok(true)
}

/// Whether options mean these edits of a slice.
fn same_edits(
    alloc: Global,
    slice: &SingleMachO<'_>,
    given: &[Given<'_>],
    edits: &[MachoEdit],
) -> Result<bool, AllocError>
    ensures { IfOk result (λ same. IsTrue same ↔ calls_of edits.now
        ≡ calls_in (laid_bytes slice.now.state) (map given_model given.now)) }
{
    let own = edits_of(alloc, slice.inner(), given)?;
    Ok(are_equal(own.as_slice(), edits))
}

/// The edits that options mean of a thin file.
fn edits_of(
    alloc: Global,
    file: &MachO<'_>,
    given: &[Given<'_>],
) -> Result<Vec<MachoEdit>, AllocError>
    ensures { IfOk result (λ edits. calls_of edits.items
        ≡ calls_in file.now.bytes (map given_model given.now)) }
{
    let names = names_of(alloc, file)?;
    name_edits(alloc, given, &names)
}

/// What a thin file has before its edits.
fn names_of(alloc: Global, file: &MachO<'_>) -> Result<Names, AllocError>
    ensures { IfOk result (λ names. names_model names ≡ names_in file.now.bytes) }
{
    let has_id = file.id().is_some();
    let libraries = libraries_of(alloc, file)?;
    let run_paths = run_paths_of(alloc, file)?;
    Ok(Names {
        has_id,
        libraries,
        run_paths,
    })
}

/// The names of the libraries that a thin file loads.
fn libraries_of(alloc: Global, file: &MachO<'_>) -> Result<Vec<String>, AllocError>
    ensures { IfOk result (λ texts.
        map string_bytes texts.items ≡ map utf8_lossy (libs_of file.now.bytes)) }
{
    let libraries = file.libs(alloc)?;
    texts_of(alloc, libraries.as_slice())
}

/// The run paths of a thin file.
fn run_paths_of(alloc: Global, file: &MachO<'_>) -> Result<Vec<String>, AllocError>
    ensures { IfOk result (λ texts.
        map string_bytes texts.items ≡ map utf8_lossy (rpaths_of file.now.bytes)) }
{
    let run_paths = file.rpaths(alloc)?;
    texts_of(alloc, run_paths.as_slice())
}

/// The texts of byte strings, with U+FFFD for what is no character.
fn texts_of(alloc: Global, list: &[&[u8]]) -> Result<Vec<String>, AllocError>
    ensures { IfOk result (λ texts. map string_bytes texts.items
        ≡ map utf8_lossy (map (λ bytes. bytes.now) list.now)) }
{
    let mut texts = Vec::new(alloc);
    for bytes in list {
        texts.push(String::from_utf8_lossy(alloc, *bytes)?)?;
    }
    Ok(texts)
}
