//! What is told of a Mach-O file, thin or fat.
ghost use Rattle.std.specs.Prelude.{◌≡◌, ◌++◌, ◌∷◌, [], IfOk, OnOk, map, option_map};
ghost use Rattle.std.specs.List.{list_any};
ghost use Rattle.macho_image.specs.Commands.{libs_of, load_commands_of, rpaths_of};
ghost use Rattle.macho_edits.specs.State.{laid_bytes};
ghost use Rattle.arwen_macho.specs.FatSlice.{slice_model};
ghost use Rattle.arwen_elf.specs.Prints.{lossily};
ghost use Rattle.arwen_cli_facts.specs.SignatureFacts.{signature_facts, signature_model};
ghost use Rattle.arwen_cli_facts.specs.MachoFacts.{MachoNamesOf, header_pad_of, is_signature as tells_signature, macho_facts, macho_model, slice_told, told_slice};
ghost use Rattle.arwen_cli_facts.specs.Texts.{texts_model};

use crate::signature::{SignatureSummary, signature_summary};
use crate::text::{text_if, texts_of};
use arwen_macho::macho::{CommandVariant, Ctx, FatMacho, LoadCommand, MachO, SingleMachO};
use macho_edits::room::{available, commands_end};
use std::alloc::{AllocError, Global};

/// The command that tells where the code signature stands (loader.h).
pub const LC_CODE_SIGNATURE: u32 = 0x1d;

/// What is told of a thin Mach-O file. Texts have U+FFFD for what is no character.
#[derive(Drop)]
pub struct MachoSummary {
    /// The processor's type (mach/machine.h).
    pub cpu: u32,
    /// The processor's model.
    pub cpu_subtype: u32,
    /// The type of file (loader.h, `filetype`).
    pub file_type: u32,
    /// The width and the byte order.
    pub form: Ctx,
    /// The library's own name (`LC_ID_DYLIB`).
    pub id: Option<String>,
    /// The libraries that are loaded, of all five kinds, in order.
    pub libraries: Vec<String>,
    /// The run paths (`LC_RPATH`), in order.
    pub run_paths: Vec<String>,
    /// Whether the slice has a code signature.
    pub is_signed: bool,
    /// What the slice's code signature says, or why that isn't read.
    pub signature: Option<SignatureSummary>,
    /// How many bytes of load commands can be added: from where they end to where content begins.
    pub header_pad: u64,
}

/// What is told of a slice of a fat file.
#[derive(Drop)]
pub struct SliceSummary {
    /// Where the slice begins in the file, in bytes.
    pub offset: u32,
    /// How many bytes the slice has.
    pub size: u32,
    /// The file in the slice.
    pub file: MachoSummary,
}

/// The texts of a thin file.
#[derive(Drop)]
pub(crate) struct MachoNames {
    pub(crate) id: Option<String>,
    pub(crate) libraries: Vec<String>,
    pub(crate) run_paths: Vec<String>,
}

/// What is told of a thin file.
pub(crate) fn macho_summary(
    alloc: Global,
    file: &SingleMachO<'_>,
) -> Result<MachoSummary, AllocError>
    ensures { IfOk result (λ s. macho_model s ≡ macho_facts (laid_bytes file.now.state)) }
{
    summary_of(alloc, file.inner())
}

/// What is told of a parsed file.
fn summary_of(alloc: Global, file: &MachO<'_>) -> Result<MachoSummary, AllocError>
    ensures { IfOk result (λ s. macho_model s ≡ macho_facts file.now.bytes) }
{
    let names = names_of(alloc, file)?;
    let signature = signature_summary(alloc, file.bytes())?;
    Ok(summary_with(file, names, signature))
}

/// What is told of a parsed file with these texts.
fn summary_with(
    file: &MachO<'_>,
    names: MachoNames,
    signature: Option<SignatureSummary>,
) -> MachoSummary
    requires names { MachoNamesOf file.now.bytes names }
    requires signature { option_map signature_model signature ≡ signature_facts file.now.bytes }
    ensures { macho_model result ≡ macho_facts file.now.bytes }
{
    let header = file.header();
    let MachoNames {
        id,
        libraries,
        run_paths,
    } = names;
    MachoSummary {
        cpu: header.cputype,
        cpu_subtype: header.cpusubtype,
        file_type: header.filetype,
        form: file.ctx(),
        id,
        libraries,
        run_paths,
        is_signed: has_signature(file.load_commands()),
        signature,
        header_pad: header_pad(file),
    }
}

/// The texts of a parsed file.
fn names_of(alloc: Global, file: &MachO<'_>) -> Result<MachoNames, AllocError>
    ensures { IfOk result (MachoNamesOf file.now.bytes) }
{
    let id = text_if(alloc, file.id())?;
    let libraries = libraries_of(alloc, file)?;
    let run_paths = run_paths_of(alloc, file)?;
    Ok(MachoNames {
        id,
        libraries,
        run_paths,
    })
}

/// The libraries that a parsed file loads.
fn libraries_of(alloc: Global, file: &MachO<'_>) -> Result<Vec<String>, AllocError>
    ensures { IfOk result (λ texts.
        texts_model texts.items ≡ map lossily (libs_of file.now.bytes)) }
{
    let libraries = file.libs(alloc)?;
    texts_of(alloc, libraries.as_slice())
}

/// The run paths of a parsed file.
fn run_paths_of(alloc: Global, file: &MachO<'_>) -> Result<Vec<String>, AllocError>
    ensures { IfOk result (λ texts.
        texts_model texts.items ≡ map lossily (rpaths_of file.now.bytes)) }
{
    let run_paths = file.rpaths(alloc)?;
    texts_of(alloc, run_paths.as_slice())
}

/// How many bytes of load commands can be added.
fn header_pad(file: &MachO<'_>) -> u64
    ensures { result ≡ header_pad_of file.now.bytes }
{
    available(file).saturating_sub(commands_end(file)) as u64
}

/// Whether one of the commands tells where the code signature stands.
fn has_signature(commands: &[LoadCommand]) -> bool
    ensures { result ≡ list_any (λ c. tells_signature c.command) commands.now }
{
    commands.iter().any(|c| is_signature(&c.command))
}

/// Whether a command tells where the code signature stands.
fn is_signature(command: &CommandVariant) -> bool
    ensures { result ≡ tells_signature command.now }
{
    match command {
        CommandVariant::Other(other) => other.cmd == LC_CODE_SIGNATURE,
        _ => false,
    }
}

/// What is told of the slices of a fat file.
pub(crate) fn slice_summaries(
    alloc: Global,
    slices: &[FatMacho<'_>],
) -> Result<Vec<SliceSummary>, AllocError>
    ensures { IfOk result (λ made.
        map slice_told made.items ≡ map told_slice (map slice_model slices.now)) }
{
    let mut made = Vec::new(alloc);
    for slice in slices {
        put_slice(alloc, &mut made, slice)?;
    }
    Ok(made)
}

/// Puts what is told of a slice behind others.
fn put_slice(
    alloc: Global,
    made: &mut Vec<SliceSummary>,
    slice: &FatMacho<'_>,
) -> Result<(), AllocError>
    ensures { OnOk result (map slice_told made.new.items
        ≡ map slice_told made.old.items ++ told_slice (slice_model slice.now) ∷ []) }
{
    made.push(slice_summary(alloc, slice)?)?;
    Ok(())
}

/// What is told of a slice.
fn slice_summary(alloc: Global, slice: &FatMacho<'_>) -> Result<SliceSummary, AllocError>
    ensures { IfOk result (λ made. slice_told made ≡ told_slice (slice_model slice.now)) }
{
    let file = macho_summary(alloc, slice.inner())?;
    let arch = slice.arch();
    Ok(SliceSummary {
        offset: arch.offset,
        size: arch.size,
        file,
    })
}
