//! What an edit is made of: built commands, changes of a list of commands in its bytes, and the texts of refusals.
ghost use Rattle.std.specs.Prelude.{◌≡◌, IfOk};
ghost use Rattle.macho_image.specs.Form.{header_of};

use crate::support::{PLAIN, WITH_RPATH, prints, same, shows};
use arwen_macho::commands::{
    CommandBuilderError, DlibCommandBuilder, NulInside, RpathCommandBuilder,
};
use arwen_macho::macho::{
    ByteOrder2, CommandVariant, Ctx, Dylib, DylibCommand, LoadCommand, MachFault, MachO,
    MachoBatchError, MachoError, RpathCommand, Wide,
};
use arwen_macho::patcher::{
    HeaderContainer, find_dylib_command, find_dylib_id, find_rpath_command, fits, insert_command,
    remove_load_command,
};
use arwen_macho::utils::{align_to_arch, padding_size};
use std::alloc::{AllocError, AllocFailed, Global};

const NARROW_LITTLE: Ctx = Ctx {
    container: Wide::W32,
    le: ByteOrder2::Little,
};

const NARROW_BIG: Ctx = Ctx {
    container: Wide::W32,
    le: ByteOrder2::Big,
};

const WIDE_LITTLE: Ctx = Ctx {
    container: Wide::W64,
    le: ByteOrder2::Little,
};

const WIDE_BIG: Ctx = Ctx {
    container: Wide::W64,
    le: ByteOrder2::Big,
};

// A library's command with numbers that a new name keeps.
const OLD: DylibCommand = DylibCommand {
    cmd: 0x8000_001f,
    cmdsize: 64,
    dylib: Dylib {
        name: 32,
        timestamp: 0x0102_0304,
        current_version: 0x0001_0203,
        compatibility_version: 0x0001_0000,
    },
};

// A size, the size with its padding, and that in a wide file.
const SIZES: &[(usize, [usize; 2])] = &[(0, [0, 0]), (5, [8, 8]), (8, [8, 8]), (12, [12, 16])];

#[test]
fn rounds_sizes(rt: HostRuntime) {
    for (size, [padded, aligned]) in SIZES {
        let found = [
            padding_size(*size),
            align_to_arch(*size, WIDE_BIG),
            align_to_arch(*size, NARROW_BIG),
        ];
        same(
            &rt,
            "sizes",
            &(*size, found),
            &(*size, [*padded, *aligned, *padded]),
        );
    }
}

// What kind of command is built.
#[derive(Clone, Copy)]
enum Kind {
    // A run path.
    Path,
    // A library under another name.
    Library,
}

// The fields and the bytes of a built command.
fn built(alloc: Global, kind: Kind, ctx: Ctx, text: &str) -> Result<String, MachoError> {
    match kind {
        Kind::Path => {
            let (fields, bytes) = RpathCommandBuilder::new(text, ctx).build(alloc)?;
            Ok(format!(in alloc; "{fields:?} {bytes:?}")?)
        }
        Kind::Library => {
            let (fields, bytes) = DlibCommandBuilder::new(text, OLD, ctx).build(alloc)?;
            Ok(format!(in alloc; "{fields:?} {bytes:?}")?)
        }
    }
}

// What is built in which form of which text, and what comes of it.
type Built = (Kind, Ctx, &'static str, &'static str);

const BUILT: &[Built] = &[
    (
        Kind::Path,
        WIDE_LITTLE,
        "/usr/local/lib",
        "RpathCommand { cmd: 2147483676, cmdsize: 32, path: 12 } \
[28, 0, 0, 128, 32, 0, 0, 0, 12, 0, 0, 0, 47, 117, 115, 114, 47, 108, 111, 99, 97, 108, 47, 108, \
105, 98, 0, 0, 0, 0, 0, 0]",
    ),
    (
        Kind::Path,
        WIDE_BIG,
        "/usr/local/lib",
        "RpathCommand { cmd: 2147483676, cmdsize: 32, path: 12 } \
[128, 0, 0, 28, 0, 0, 0, 32, 0, 0, 0, 12, 47, 117, 115, 114, 47, 108, 111, 99, 97, 108, 47, 108, \
105, 98, 0, 0, 0, 0, 0, 0]",
    ),
    (
        Kind::Path,
        NARROW_LITTLE,
        "/usr/local/lib",
        "RpathCommand { cmd: 2147483676, cmdsize: 28, path: 12 } \
[28, 0, 0, 128, 28, 0, 0, 0, 12, 0, 0, 0, 47, 117, 115, 114, 47, 108, 111, 99, 97, 108, 47, 108, \
105, 98, 0, 0]",
    ),
    (
        Kind::Path,
        NARROW_BIG,
        "/usr/local/lib",
        "RpathCommand { cmd: 2147483676, cmdsize: 28, path: 12 } \
[128, 0, 0, 28, 0, 0, 0, 28, 0, 0, 0, 12, 47, 117, 115, 114, 47, 108, 111, 99, 97, 108, 47, 108, \
105, 98, 0, 0]",
    ),
    (
        Kind::Path,
        WIDE_LITTLE,
        "",
        "RpathCommand { cmd: 2147483676, cmdsize: 16, path: 12 } \
[28, 0, 0, 128, 16, 0, 0, 0, 12, 0, 0, 0, 0, 0, 0, 0]",
    ),
    (
        Kind::Library,
        WIDE_LITTLE,
        "libx.dylib",
        "DylibCommand { cmd: 2147483679, cmdsize: 40, dylib: Dylib { name: 24, timestamp: 16909060, \
current_version: 66051, compatibility_version: 65536 } } \
[31, 0, 0, 128, 40, 0, 0, 0, 24, 0, 0, 0, 4, 3, 2, 1, 3, 2, 1, 0, 0, 0, 1, 0, 108, 105, 98, 120, \
46, 100, 121, 108, 105, 98, 0, 0, 0, 0, 0, 0]",
    ),
    (
        Kind::Library,
        NARROW_BIG,
        "libx.dylib",
        "DylibCommand { cmd: 2147483679, cmdsize: 36, dylib: Dylib { name: 24, timestamp: 16909060, \
current_version: 66051, compatibility_version: 65536 } } \
[128, 0, 0, 31, 0, 0, 0, 36, 0, 0, 0, 24, 1, 2, 3, 4, 0, 1, 2, 3, 0, 1, 0, 0, 108, 105, 98, 120, \
46, 100, 121, 108, 105, 98, 0, 0]",
    ),
    (
        Kind::Path,
        WIDE_LITTLE,
        "a\0b",
        "CommandBuilderError(CStrError(NulInside { position: 1 }))",
    ),
    (
        Kind::Library,
        NARROW_BIG,
        "a\0b\0",
        "CommandBuilderError(CStrError(NulInside { position: 1 }))",
    ),
];

#[test]
fn builds_commands(rt: HostRuntime) {
    for (kind, ctx, text, want) in BUILT {
        tells!(&rt; text; built(rt.alloc(), *kind, *ctx, text); want);
    }
}

#[test]
fn prints_builder_errors(rt: HostRuntime) {
    let nul = NulInside { position: 1 };
    prints(
        &rt,
        &CommandBuilderError::from(nul),
        "error when creating a CStr: NUL at 1",
    );
    prints(
        &rt,
        &CommandBuilderError::ScrollError,
        "error when writing rpath command as bytes: command too long",
    );
    prints(&rt, &CommandBuilderError::from(AllocError), "out of memory");
    let failed = AllocFailed { value: 1u8 };
    prints(&rt, &CommandBuilderError::from(failed), "out of memory");
}

#[test]
fn prints_file_errors(rt: HostRuntime) {
    let truncated = MachoError::from(MachFault::Truncated);
    prints(&rt, &truncated, "error while parsing Mach-O file");
    prints(
        &rt,
        &MachoError::UnixArchive,
        "unix archive is not supported as fat file format",
    );
    let nul = CommandBuilderError::CStrError(NulInside { position: 1 });
    prints(
        &rt,
        &MachoError::from(nul),
        "error when creating a new command: error when creating a CStr: NUL at 1",
    );
}

#[test]
fn prints_edit_errors(rt: HostRuntime) {
    let path = sure!(&rt; String::from_str(rt.alloc(), "/a"));
    prints(
        &rt,
        &MachoError::RpathMissing(path),
        "requested rpath is missing: /a",
    );
    let name = sure!(&rt; String::from_str(rt.alloc(), "b.dylib"));
    prints(
        &rt,
        &MachoError::DylibNameMissing(name),
        "requested dylib name is missing: b.dylib",
    );
    prints(
        &rt,
        &MachoError::DylibIdMissing,
        "LC_ID_DYLIB is missing or file is not a shared library",
    );
    let no_room = MachoError::NoRoom {
        needed: 96,
        available: 64,
    };
    prints(&rt, &no_room, "no room: 96 > 64");
}

#[test]
fn turns_want_of_memory_into_its_own(rt: HostRuntime) {
    let text = "out of memory";
    prints(&rt, &MachoError::from(CommandBuilderError::Memory), text);
    prints(&rt, &MachoError::from(MachFault::Memory), text);
    prints(&rt, &MachoError::from(AllocError), text);
    prints(&rt, &MachoError::from(AllocFailed { value: 1u8 }), text);
    let allocation = MachoBatchError::from(AllocError);
    prints(&rt, &allocation.fault, "out of memory");
    prints(&rt, &allocation, "MachoBatchError");
    let growth = MachoBatchError::from(AllocFailed { value: 1u8 });
    prints(&rt, &growth.fault, "out of memory");
    prints(&rt, &growth, "MachoBatchError");
}

// The header that a file shows.
fn header_in(alloc: Global, bytes: &[u8]) -> Result<HeaderContainer, MachFault>
    ensures { IfOk result (λ header. header.inner ≡ header_of header.ctx bytes.now) }
{
    let file = MachO::parse(alloc, bytes)?;
    Ok(HeaderContainer::new(*file.header(), file.ctx()))
}

// Puts a command of 16 bytes in at 64.
#[tactic(auto, using(arwen_macho::proofs::ForCallers::held_ncmds, arwen_macho::proofs::ForCallers::held_sizeofcmds))]
fn insert_at_64(
    alloc: Global,
    header: &mut HeaderContainer,
    buffer: &mut Vec<u8>,
) -> Result<(), MachoError>
    requires { header.old.inner ≡ header_of header.old.ctx buffer.old.items }
{
    let command = Vec::from_slice(alloc, b"\x1c\0\0\x80\x10\0\0\0\x0c\0\0\0/a\0\0")?;
    let held = header.inner;
    if command.len() != 16 || buffer.len() != 128 || held.sizeofcmds != 64 {
        return Err(MachoError::DylibIdMissing);
    }
    if header.size() != 32 || held.ncmds != 2 {
        return Err(MachoError::DylibIdMissing);
    }
    insert_command(alloc, buffer, header, 64, 16, command)
}

// Takes the command of 16 bytes out that is at 64.
#[tactic(auto, using(arwen_macho::proofs::ForCallers::held_ncmds, arwen_macho::proofs::ForCallers::held_sizeofcmds))]
fn remove_at_64(
    alloc: Global,
    header: &mut HeaderContainer,
    buffer: &mut Vec<u8>,
) -> Result<(), MachoError>
    requires { header.old.inner ≡ header_of header.old.ctx buffer.old.items }
{
    let command = LoadCommand {
        offset: 64,
        command: CommandVariant::Rpath(RpathCommand {
            cmd: 0x8000_001c,
            cmdsize: 16,
            path: 12,
        }),
    };
    let held = header.inner;
    if buffer.len() != 128 || held.sizeofcmds != 80 {
        return Err(MachoError::DylibIdMissing);
    }
    if header.size() != 32 || held.ncmds != 3 {
        return Err(MachoError::DylibIdMissing);
    }
    remove_load_command(alloc, buffer, header, &command)
}

// A file with the command put in that is no part of it, or taken out.
fn edited(
    alloc: Global,
    bytes: &[u8],
    has_path: bool,
) -> Result<(HeaderContainer, Vec<u8>), MachoError> {
    let mut header = header_in(alloc, bytes)?;
    let mut buffer = Vec::from_slice(alloc, bytes)?;
    if has_path {
        remove_at_64(alloc, &mut header, &mut buffer)?;
    } else {
        insert_at_64(alloc, &mut header, &mut buffer)?;
    }
    Ok((header, buffer))
}

// A file, whether it has the run path, and the same without or with it.
const EDITED: &[(&[u8; 128], bool, &[u8; 128])] = &[
    (PLAIN, false, WITH_RPATH),
    (WITH_RPATH, true, PLAIN),
];

#[test]
fn inserts_and_removes_command(rt: HostRuntime) {
    for (file, has_path, want) in EDITED {
        let (header, bytes) = sure!(&rt; edited(rt.alloc(), *file, *has_path));
        same(&rt, "bytes", &bytes.as_slice(), &want.as_slice());
        same(
            &rt,
            "header",
            &header,
            &sure!(&rt; header_in(rt.alloc(), *want)),
        );
    }
}

// Where the commands are that are found with this number in a list, and what of their fields.
fn found_in(commands: &[LoadCommand], index: usize) -> [Option<(usize, u32)>; 3] {
    let path = find_rpath_command(commands, index);
    let loaded = find_dylib_command(commands, index);
    let name = find_dylib_id(&commands[index.min(commands.len())..]);
    [
        path.map(|(command, fields)| (command.offset, fields.path)),
        loaded.map(|(command, fields)| (command.offset, fields.dylib.timestamp)),
        name.map(|(command, fields)| (command.offset, fields.dylib.current_version)),
    ]
}

// A number in a list, and what is found with it.
const FOUND: &[(usize, &str)] = &[
    (0, "[Some((64, 12)), Some((80, 2)), Some((32, 66051))]"),
    (1, "[None, None, None]"),
];

// Where commands of a file end, and whether they may.
const ENDS: &[(usize, bool)] = &[(0, true), (96, true), (128, true), (129, false)];

#[test]
fn finds_commands_and_room(rt: HostRuntime) {
    let file = sure!(&rt; MachO::parse(rt.alloc(), WITH_RPATH));
    for (index, want) in FOUND {
        let found = found_in(file.load_commands(), *index);
        shows(&rt, "commands", &found, want);
    }
    let file = sure!(&rt; MachO::parse(rt.alloc(), PLAIN));
    for (end, want) in ENDS {
        same(&rt, "fits", &(*end, fits(&file, *end)), &(*end, *want));
    }
}
