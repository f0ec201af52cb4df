//! How an area of load commands is stored: two commands in place of one, and then none over the copy that is there.
ghost use Rattle.std.specs.Prelude.{◌≡◌, ◌+◌, ◌≤◌, IfOk, None, length};
ghost use Rattle.macho_image.specs.Checks.{area_fault};
ghost use Rattle.macho_image.specs.Form.{ctx_of, header_size};

use crate::image::{What, shown};
use crate::support::{Runtime, same, wants_memory};
use macho_image::{Ctx, MachFault, MachO, header_size, read_commands};
use std::alloc::{AllocError, Global};

// In four forms: a run path and a symbol table with one symbol and four bytes of strings, and files with one command
// (another run path), with these two, and with none. Zeros stand behind stored commands up to the strings, and other
// bytes at the end.
const NARROW_LITTLE_AREA: &[u8; 40] = b"\x1c\0\0\x80\x10\0\0\0\x0c\0\0\0\x62\0\0\0\
\x02\0\0\0\x18\0\0\0\x50\0\0\0\x01\0\0\0\x4c\0\0\0\x04\0\0\0";

const NARROW_LITTLE_ONE: &[u8; 84] =
    b"\xce\xfa\xed\xfe\x07\x07\x07\x07\x07\x07\x07\x07\x07\x07\x07\x07\x01\0\0\0\x10\0\0\0\x09\x09\x09\
\x09\
\x1c\0\0\x80\x10\0\0\0\x0c\0\0\0\x61\0\0\0\
\xff\xff\xff\xff\xff\xff\xff\xff\xff\xff\xff\xff\xff\xff\xff\xff\xff\xff\xff\xff\xff\xff\xff\xff\
\xff\xff\xff\xff\
\xff\xff\xff\xff\xff\xff\xff\xff\xff\xff\xff\xff";

const NARROW_LITTLE_TWO: &[u8; 84] =
    b"\xce\xfa\xed\xfe\x07\x07\x07\x07\x07\x07\x07\x07\x07\x07\x07\x07\x02\0\0\0\x28\0\0\0\x09\x09\x09\
\x09\
\x1c\0\0\x80\x10\0\0\0\x0c\0\0\0\x62\0\0\0\
\x02\0\0\0\x18\0\0\0\x50\0\0\0\x01\0\0\0\x4c\0\0\0\x04\0\0\0\
\0\0\0\0\
\xff\xff\xff\xff\xff\xff\xff\xff\xff\xff\xff\xff";

const NARROW_LITTLE_NONE: &[u8; 84] =
    b"\xce\xfa\xed\xfe\x07\x07\x07\x07\x07\x07\x07\x07\x07\x07\x07\x07\0\0\0\0\0\0\0\0\x09\x09\x09\x09\
\0\0\0\0\0\0\0\0\0\0\0\0\0\0\0\0\
\0\0\0\0\0\0\0\0\0\0\0\0\0\0\0\0\0\0\0\0\0\0\0\0\
\0\0\0\0\
\xff\xff\xff\xff\xff\xff\xff\xff\xff\xff\xff\xff";

const NARROW_BIG_AREA: &[u8; 40] = b"\x80\0\0\x1c\0\0\0\x10\0\0\0\x0c\x62\0\0\0\
\0\0\0\x02\0\0\0\x18\0\0\0\x50\0\0\0\x01\0\0\0\x4c\0\0\0\x04";

const NARROW_BIG_ONE: &[u8; 84] =
    b"\xfe\xed\xfa\xce\x07\x07\x07\x07\x07\x07\x07\x07\x07\x07\x07\x07\0\0\0\x01\0\0\0\x10\x09\x09\x09\
\x09\
\x80\0\0\x1c\0\0\0\x10\0\0\0\x0c\x61\0\0\0\
\xff\xff\xff\xff\xff\xff\xff\xff\xff\xff\xff\xff\xff\xff\xff\xff\xff\xff\xff\xff\xff\xff\xff\xff\
\xff\xff\xff\xff\
\xff\xff\xff\xff\xff\xff\xff\xff\xff\xff\xff\xff";

const NARROW_BIG_TWO: &[u8; 84] =
    b"\xfe\xed\xfa\xce\x07\x07\x07\x07\x07\x07\x07\x07\x07\x07\x07\x07\0\0\0\x02\0\0\0\x28\x09\x09\x09\
\x09\
\x80\0\0\x1c\0\0\0\x10\0\0\0\x0c\x62\0\0\0\
\0\0\0\x02\0\0\0\x18\0\0\0\x50\0\0\0\x01\0\0\0\x4c\0\0\0\x04\
\0\0\0\0\
\xff\xff\xff\xff\xff\xff\xff\xff\xff\xff\xff\xff";

const NARROW_BIG_NONE: &[u8; 84] =
    b"\xfe\xed\xfa\xce\x07\x07\x07\x07\x07\x07\x07\x07\x07\x07\x07\x07\0\0\0\0\0\0\0\0\x09\x09\x09\x09\
\0\0\0\0\0\0\0\0\0\0\0\0\0\0\0\0\
\0\0\0\0\0\0\0\0\0\0\0\0\0\0\0\0\0\0\0\0\0\0\0\0\
\0\0\0\0\
\xff\xff\xff\xff\xff\xff\xff\xff\xff\xff\xff\xff";

const WIDE_LITTLE_AREA: &[u8; 40] = b"\x1c\0\0\x80\x10\0\0\0\x0c\0\0\0\x62\0\0\0\
\x02\0\0\0\x18\0\0\0\x54\0\0\0\x01\0\0\0\x50\0\0\0\x04\0\0\0";

const WIDE_LITTLE_ONE: &[u8; 88] =
    b"\xcf\xfa\xed\xfe\x07\x07\x07\x07\x07\x07\x07\x07\x07\x07\x07\x07\x01\0\0\0\x10\0\0\0\x09\x09\x09\
\x09\x09\x09\x09\x09\
\x1c\0\0\x80\x10\0\0\0\x0c\0\0\0\x61\0\0\0\
\xff\xff\xff\xff\xff\xff\xff\xff\xff\xff\xff\xff\xff\xff\xff\xff\xff\xff\xff\xff\xff\xff\xff\xff\
\xff\xff\xff\xff\
\xff\xff\xff\xff\xff\xff\xff\xff\xff\xff\xff\xff";

const WIDE_LITTLE_TWO: &[u8; 88] =
    b"\xcf\xfa\xed\xfe\x07\x07\x07\x07\x07\x07\x07\x07\x07\x07\x07\x07\x02\0\0\0\x28\0\0\0\x09\x09\x09\
\x09\x09\x09\x09\x09\
\x1c\0\0\x80\x10\0\0\0\x0c\0\0\0\x62\0\0\0\
\x02\0\0\0\x18\0\0\0\x54\0\0\0\x01\0\0\0\x50\0\0\0\x04\0\0\0\
\0\0\0\0\
\xff\xff\xff\xff\xff\xff\xff\xff\xff\xff\xff\xff";

const WIDE_LITTLE_NONE: &[u8; 88] =
    b"\xcf\xfa\xed\xfe\x07\x07\x07\x07\x07\x07\x07\x07\x07\x07\x07\x07\0\0\0\0\0\0\0\0\x09\x09\x09\x09\
\x09\x09\x09\x09\
\0\0\0\0\0\0\0\0\0\0\0\0\0\0\0\0\
\0\0\0\0\0\0\0\0\0\0\0\0\0\0\0\0\0\0\0\0\0\0\0\0\
\0\0\0\0\
\xff\xff\xff\xff\xff\xff\xff\xff\xff\xff\xff\xff";

const WIDE_BIG_AREA: &[u8; 40] = b"\x80\0\0\x1c\0\0\0\x10\0\0\0\x0c\x62\0\0\0\
\0\0\0\x02\0\0\0\x18\0\0\0\x54\0\0\0\x01\0\0\0\x50\0\0\0\x04";

const WIDE_BIG_ONE: &[u8; 88] =
    b"\xfe\xed\xfa\xcf\x07\x07\x07\x07\x07\x07\x07\x07\x07\x07\x07\x07\0\0\0\x01\0\0\0\x10\x09\x09\x09\
\x09\x09\x09\x09\x09\
\x80\0\0\x1c\0\0\0\x10\0\0\0\x0c\x61\0\0\0\
\xff\xff\xff\xff\xff\xff\xff\xff\xff\xff\xff\xff\xff\xff\xff\xff\xff\xff\xff\xff\xff\xff\xff\xff\
\xff\xff\xff\xff\
\xff\xff\xff\xff\xff\xff\xff\xff\xff\xff\xff\xff";

const WIDE_BIG_TWO: &[u8; 88] =
    b"\xfe\xed\xfa\xcf\x07\x07\x07\x07\x07\x07\x07\x07\x07\x07\x07\x07\0\0\0\x02\0\0\0\x28\x09\x09\x09\
\x09\x09\x09\x09\x09\
\x80\0\0\x1c\0\0\0\x10\0\0\0\x0c\x62\0\0\0\
\0\0\0\x02\0\0\0\x18\0\0\0\x54\0\0\0\x01\0\0\0\x50\0\0\0\x04\
\0\0\0\0\
\xff\xff\xff\xff\xff\xff\xff\xff\xff\xff\xff\xff";

const WIDE_BIG_NONE: &[u8; 88] =
    b"\xfe\xed\xfa\xcf\x07\x07\x07\x07\x07\x07\x07\x07\x07\x07\x07\x07\0\0\0\0\0\0\0\0\x09\x09\x09\x09\
\x09\x09\x09\x09\
\0\0\0\0\0\0\0\0\0\0\0\0\0\0\0\0\
\0\0\0\0\0\0\0\0\0\0\0\0\0\0\0\0\0\0\0\0\0\0\0\0\
\0\0\0\0\
\xff\xff\xff\xff\xff\xff\xff\xff\xff\xff\xff\xff";

// The header of each, its commands, and where its content begins.
const NARROW_ONE: &str = "(Header { magic: 4277009102, cputype: 117901063, cpusubtype: 117901063, \
filetype: 117901063, ncmds: 1, sizeofcmds: 16, flags: 151587081, reserved: 0 }, \
[LoadCommand { offset: 28, \
command: Rpath(RpathCommand { cmd: 2147483676, cmdsize: 16, path: 12 }) }], 84)";

const NARROW_TWO: &str = "(Header { magic: 4277009102, cputype: 117901063, cpusubtype: 117901063, \
filetype: 117901063, ncmds: 2, sizeofcmds: 40, flags: 151587081, reserved: 0 }, \
[LoadCommand { offset: 28, \
command: Rpath(RpathCommand { cmd: 2147483676, cmdsize: 16, path: 12 }) }, \
LoadCommand { offset: 44, \
command: Symtab(LoadCommandHeader { cmd: 2, cmdsize: 24 }) }], 76)";

const NARROW_NONE: &str = "(Header { magic: 4277009102, cputype: 117901063, cpusubtype: 117901063, \
filetype: 117901063, ncmds: 0, sizeofcmds: 0, flags: 151587081, reserved: 0 }, \
[], 84)";

const WIDE_ONE: &str = "(Header { magic: 4277009103, cputype: 117901063, cpusubtype: 117901063, \
filetype: 117901063, ncmds: 1, sizeofcmds: 16, flags: 151587081, reserved: 151587081 }, \
[LoadCommand { offset: 32, \
command: Rpath(RpathCommand { cmd: 2147483676, cmdsize: 16, path: 12 }) }], 88)";

const WIDE_TWO: &str = "(Header { magic: 4277009103, cputype: 117901063, cpusubtype: 117901063, \
filetype: 117901063, ncmds: 2, sizeofcmds: 40, flags: 151587081, reserved: 151587081 }, \
[LoadCommand { offset: 32, \
command: Rpath(RpathCommand { cmd: 2147483676, cmdsize: 16, path: 12 }) }, \
LoadCommand { offset: 48, \
command: Symtab(LoadCommandHeader { cmd: 2, cmdsize: 24 }) }], 80)";

const WIDE_NONE: &str = "(Header { magic: 4277009103, cputype: 117901063, cpusubtype: 117901063, \
filetype: 117901063, ncmds: 0, sizeofcmds: 0, flags: 151587081, reserved: 151587081 }, \
[], 88)";

// A file's bytes, and what it shows.
type State = (&'static [u8], &'static str);

// Commands, and a file with one command, with these two, and with none.
#[derive(Clone, Copy)]
struct Row {
    area: &'static [u8],
    one: State,
    two: State,
    none: State,
}

const ROWS: &[Row] = &[
    Row {
        area: NARROW_LITTLE_AREA,
        one: (NARROW_LITTLE_ONE, NARROW_ONE),
        two: (NARROW_LITTLE_TWO, NARROW_TWO),
        none: (NARROW_LITTLE_NONE, NARROW_NONE),
    },
    Row {
        area: NARROW_BIG_AREA,
        one: (NARROW_BIG_ONE, NARROW_ONE),
        two: (NARROW_BIG_TWO, NARROW_TWO),
        none: (NARROW_BIG_NONE, NARROW_NONE),
    },
    Row {
        area: WIDE_LITTLE_AREA,
        one: (WIDE_LITTLE_ONE, WIDE_ONE),
        two: (WIDE_LITTLE_TWO, WIDE_TWO),
        none: (WIDE_LITTLE_NONE, WIDE_NONE),
    },
    Row {
        area: WIDE_BIG_AREA,
        one: (WIDE_BIG_ONE, WIDE_ONE),
        two: (WIDE_BIG_TWO, WIDE_TWO),
        none: (WIDE_BIG_NONE, WIDE_NONE),
    },
];

fn expect_state(rt: &impl Runtime, file: &MachO<'_>, state: &State) {
    same(rt, "bytes", &file.bytes(), &state.0);
    tells!(rt; "lists"; shown(rt.alloc(), file, What::Lists); state.1);
}

// The area passes its checks.
fn check_area(alloc: Global, ctx: Ctx, count: u32, area: &[u8]) -> Result<(), MachFault>
    ensures { IfOk result (λ _. area_fault ctx.le count area.now ≡ None) }
{
    let start = header_size(ctx.container);
    match read_commands(alloc, ctx.le, start, count, area, usize::MAX) {
        Ok(_) => Ok(()),
        Err(fault) => Err(fault),
    }
}

// Stores an area that passes its checks, with zeros behind it up to `high`, and tells what it writes at the file's
// front. Memory is taken before a byte is stored.
fn store_checked(
    alloc: Global,
    file: &mut MachO<'_>,
    count: u32,
    area: &[u8],
    high: usize,
) -> Result<Vec<u8>, AllocError>
    requires commands { area_fault (ctx_of file.old.bytes).le count area.now ≡ None }
    requires room { header_size (ctx_of file.old.bytes).container + length area.now ≤ high }
    requires inside { high ≤ length file.old.bytes }
{
    let front = file.front_with(alloc, count, area, high)?;
    let prepared = file.prepare(alloc, count, Vec::from_slice(alloc, area)?)?;
    file.store(prepared, high);
    Ok(front)
}

// Stores an area that is checked first.
fn store_area(
    alloc: Global,
    file: &mut MachO<'_>,
    count: u32,
    area: &[u8],
    high: usize,
) -> Result<Vec<u8>, MachFault> {
    check_area(alloc, file.ctx(), count, area)?;
    let start = header_size(file.ctx().container);
    if start > high || area.len() > high - start || high > file.bytes().len() {
        return Err(MachFault::TooLong);
    }
    Ok(store_checked(alloc, file, count, area, high)?)
}

// Stores an area in a file that shows this before and that after, up to its last 12 bytes. It is stored once more where
// memory is refused, and then the file shows what it did before.
fn store(
    rt: &impl Runtime,
    file: &mut MachO<'_>,
    count: u32,
    area: &[u8],
    before: &State,
    after: &State,
) {
    expect_state(rt, file, before);
    let high = after.0.len().saturating_sub(12);
    let mut answer = store_area(rt.alloc(), file, count, area, high);
    if wants_memory(rt, &answer) {
        expect_state(rt, file, before);
        answer = store_area(rt.alloc(), file, count, area, high);
    }
    let front = answer.expect(rt, "stored");
    same(rt, "front", &front.as_slice(), &&after.0[..high]);
    expect_state(rt, file, after);
}

// Two commands are stored in place of one, and then none over the copy that is there. The bytes are handed out without
// memory then.
#[test]
fn stores_in_each_form(rt: HostRuntime) {
    for row in ROWS {
        let mut file = sure!(&rt; MachO::parse(rt.alloc(), row.one.0));
        store(&rt, &mut file, 2, row.area, &row.one, &row.two);
        store(&rt, &mut file, 0, &[], &row.two, &row.none);
        let handed = file.into_bytes(rt.alloc()).expect(&rt, "bytes");
        same(&rt, "handed out", &handed.as_slice(), &row.none.0);
    }
}
