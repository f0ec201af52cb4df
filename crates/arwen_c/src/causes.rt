//! The numbers of causes, and what calls return.
ghost use Rattle.std.specs.Prelude.{◌≡◌, ◌≢◌};
ghost use Rattle.arwen_c.specs.Causes.{array_cause as array_told, cause_of as cause_told, edit_of as edit_told, elf_cause as elf_told, elf_edit as elf_edit_told, elf_fault_cause as elf_fault_told, elf_status as elf_status_told, file_cause as file_told, macho_cause as macho_told, macho_edit as macho_edit_told, macho_fault_cause as macho_fault_told, macho_status as macho_status_told, modify_cause as modify_told, read_cause as read_told, signature_cause as signature_told, signing_cause as signing_told, status_of as status_told, words_cause as words_told};

use crate::error::CallError;
use crate::status::{ARWEN_MEMORY, ARWEN_OK, ARWEN_REFUSED, ARWEN_WORDS, NO_EDIT};
use arwen_c_edits::WrongEdit;
use command_words::EditKind;
use elf_commands::ElfCommandError;
use elf_commands::files::{ElfError, ModifyCause};
use elf_format::ElfFault;
use macho_commands::MachoCommandError;
use macho_edits::error::MachoError;
use macho_image::MachFault;
use macho_signatures::SignatureFault;
use macho_signing::SigningFault;

/// The cause of an error; 0 for want of memory, which has none.
pub(crate) fn cause_of(error: &CallError) -> u32
    ensures { result ≡ cause_told error.now }
{
    match error {
        CallError::Array(fault) => array_cause(fault.wrong),
        CallError::Words(fault) => words_cause(fault.kind),
        CallError::NoText(_) => 310,
        CallError::UnknownFormat => 2,
        CallError::Elf(error) => elf_cause(error),
        CallError::Macho(error) => macho_cause(error),
        CallError::Memory => 0,
    }
}

/// The cause of a wrong edit of an array.
fn array_cause(wrong: WrongEdit) -> u32
    ensures { result ≡ array_told wrong }
{
    match wrong {
        WrongEdit::UnknownKind => 321,
        WrongEdit::WrongCount => 322,
        WrongEdit::NoText => 323,
        WrongEdit::OtherFormat => 324,
    }
}

/// The cause of wrong words.
fn words_cause(kind: EditKind) -> u32
    ensures { result ≡ words_told kind }
{
    match kind {
        EditKind::Empty => 301,
        EditKind::UnknownEdit => 302,
        EditKind::WrongWords => 303,
        EditKind::KeyValue => 304,
        EditKind::Number => 305,
    }
}

/// The cause of an error of an edit of an ELF file.
fn elf_cause(error: &ElfCommandError) -> u32
    ensures { result ≡ elf_told error.now }
{
    match error {
        ElfCommandError::Elf(fault) => elf_fault_cause(fault),
        ElfCommandError::ElfBatch(batch) => elf_fault_cause(&batch.fault),
        ElfCommandError::Io(_) => 1,
        ElfCommandError::Edits(fault) => words_cause(fault.kind),
        ElfCommandError::Memory => 0,
    }
}

fn elf_fault_cause(error: &ElfError) -> u32
    ensures { result ≡ elf_fault_told error.now }
{
    match error {
        ElfError::Io(_) => 1,
        ElfError::Parse(fault) => read_cause(*fault),
        ElfError::Write(_) => 121,
        ElfError::Modify(cause) => modify_cause(cause),
        ElfError::InvalidDtNeededEncoding => 104,
        ElfError::Memory => 0,
    }
}

fn read_cause(fault: ElfFault) -> u32
    ensures { result ≡ read_told fault }
{
    match fault {
        ElfFault::Truncated => 101,
        ElfFault::Unsupported => 102,
        ElfFault::Disagree(_) => 103,
        ElfFault::BadText => 104,
        ElfFault::NumberTooLarge => 105,
        ElfFault::BadMagic => 106,
        ElfFault::Memory => 0,
    }
}

fn modify_cause(cause: &ModifyCause) -> u32
    ensures { result ≡ modify_told cause.now }
{
    match cause {
        ModifyCause::NoDynamic(_) => 141,
        ModifyCause::NoInterp => 142,
        ModifyCause::UnknownAbi(_) => 143,
        ModifyCause::BadPageSize(_) => 144,
        ModifyCause::NoRunPath => 145,
        ModifyCause::Overlap => 146,
        ModifyCause::NulInText => 147,
        ModifyCause::MipsImage => 148,
        ModifyCause::SymbolInRelocation => 149,
        ModifyCause::CannotRenumber => 150,
        ModifyCause::SectionInUse => 151,
        ModifyCause::TooManyHeaders => 152,
    }
}

/// The cause of an error of an edit of a Mach-O file.
fn macho_cause(error: &MachoCommandError) -> u32
    ensures { result ≡ macho_told error.now }
{
    match error {
        MachoCommandError::Macho(fault) => macho_fault_cause(fault),
        MachoCommandError::MachoBatch(batch) => macho_fault_cause(&batch.fault),
        MachoCommandError::Io(_) => 1,
        MachoCommandError::Edits(fault) => words_cause(fault.kind),
        MachoCommandError::Signing(fault) => signing_cause(*fault),
        MachoCommandError::Unfit => 0,
        MachoCommandError::Memory => 0,
    }
}

fn macho_fault_cause(error: &MachoError) -> u32
    ensures { result ≡ macho_fault_told error.now }
{
    match error {
        MachoError::Parsing(fault) => file_cause(*fault),
        MachoError::UnixArchive => 209,
        MachoError::CommandBuilderError(_) => 221,
        MachoError::RpathMissing(_) => 222,
        MachoError::DylibNameMissing(_) => 223,
        MachoError::DylibIdMissing => 224,
        MachoError::NoRoom { .. } => 225,
        MachoError::Memory => 0,
    }
}

fn file_cause(fault: MachFault) -> u32
    ensures { result ≡ file_told fault }
{
    match fault {
        MachFault::BadMagic => 201,
        MachFault::Truncated => 202,
        MachFault::BadCommandSize => 203,
        MachFault::BadNameOffset => 204,
        MachFault::CountsDisagree => 205,
        MachFault::SliceOutside => 206,
        MachFault::SlicesOverlap => 207,
        MachFault::TooLong => 208,
        MachFault::Memory => 0,
    }
}

/// The cause of a fault of a code signature.
fn signing_cause(fault: SigningFault) -> u32
    ensures { result ≡ signing_told fault }
{
    match fault {
        SigningFault::File(fault) => file_cause(fault),
        SigningFault::BadCommand => 241,
        SigningFault::SeveralSignatures => 242,
        SigningFault::InCommands => 243,
        SigningFault::Signature(fault) => signature_cause(fault),
        SigningFault::ChangedSignature => 244,
        SigningFault::Memory => 0,
    }
}

fn signature_cause(fault: SignatureFault) -> u32
    ensures { result ≡ signature_told fault }
{
    match fault {
        SignatureFault::Outside => 251,
        SignatureFault::NoSuperBlob => 252,
        SignatureFault::BadLength => 253,
        SignatureFault::BadIndex => 254,
        SignatureFault::BadBlob => 255,
        SignatureFault::BadDirectory => 256,
        SignatureFault::UnknownHash => 257,
        SignatureFault::BadPageSize => 258,
        SignatureFault::Scattered => 259,
        SignatureFault::BadSlots => 260,
        SignatureFault::BadLimit => 261,
        SignatureFault::NoDirectory => 262,
        SignatureFault::Memory => 0,
    }
}

/// The edit that an error stands against; `NO_EDIT` where it is none.
pub(crate) fn edit_of(error: &CallError) -> usize
    ensures { result ≡ edit_told error.now }
{
    match error {
        CallError::Array(fault) => fault.index,
        CallError::Words(fault) => fault.group,
        CallError::NoText(group) => *group,
        CallError::UnknownFormat => NO_EDIT,
        CallError::Elf(error) => elf_edit(error),
        CallError::Macho(error) => macho_edit(error),
        CallError::Memory => NO_EDIT,
    }
}

fn elf_edit(error: &ElfCommandError) -> usize
    ensures { result ≡ elf_edit_told error.now }
{
    match error {
        ElfCommandError::Elf(_) => NO_EDIT,
        ElfCommandError::ElfBatch(batch) => batch.index,
        ElfCommandError::Io(_) => NO_EDIT,
        ElfCommandError::Edits(fault) => fault.group,
        ElfCommandError::Memory => NO_EDIT,
    }
}

fn macho_edit(error: &MachoCommandError) -> usize
    ensures { result ≡ macho_edit_told error.now }
{
    match error {
        MachoCommandError::Macho(_) => NO_EDIT,
        MachoCommandError::MachoBatch(batch) => batch.index,
        MachoCommandError::Io(_) => NO_EDIT,
        MachoCommandError::Edits(fault) => fault.group,
        MachoCommandError::Signing(_) => NO_EDIT,
        MachoCommandError::Unfit => NO_EDIT,
        MachoCommandError::Memory => NO_EDIT,
    }
}

/// What a call returns that is refused.
pub(crate) fn status_of(error: &CallError) -> u32
    ensures status { result ≡ status_told error.now }
    ensures refused { result ≢ ARWEN_OK }
{
    match error {
        CallError::Array(_) => ARWEN_WORDS,
        CallError::Words(_) => ARWEN_WORDS,
        CallError::NoText(_) => ARWEN_WORDS,
        CallError::UnknownFormat => ARWEN_REFUSED,
        CallError::Elf(error) => elf_status(error),
        CallError::Macho(error) => macho_status(error),
        CallError::Memory => ARWEN_MEMORY,
    }
}

fn elf_status(error: &ElfCommandError) -> u32
    ensures status { result ≡ elf_status_told error.now }
    ensures refused { result ≢ ARWEN_OK }
{
    match error {
        ElfCommandError::Elf(_) => ARWEN_REFUSED,
        ElfCommandError::ElfBatch(_) => ARWEN_REFUSED,
        ElfCommandError::Io(_) => ARWEN_REFUSED,
        ElfCommandError::Edits(_) => ARWEN_WORDS,
        ElfCommandError::Memory => ARWEN_MEMORY,
    }
}

fn macho_status(error: &MachoCommandError) -> u32
    ensures status { result ≡ macho_status_told error.now }
    ensures refused { result ≢ ARWEN_OK }
{
    match error {
        MachoCommandError::Macho(_) => ARWEN_REFUSED,
        MachoCommandError::MachoBatch(_) => ARWEN_REFUSED,
        MachoCommandError::Io(_) => ARWEN_REFUSED,
        MachoCommandError::Edits(_) => ARWEN_WORDS,
        MachoCommandError::Signing(_) => ARWEN_REFUSED,
        MachoCommandError::Unfit => ARWEN_REFUSED,
        MachoCommandError::Memory => ARWEN_MEMORY,
    }
}
