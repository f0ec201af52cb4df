//! Numbers that stand at positions of a byte slice, and rounding up.

use crate::support::{Runtime, same};
use patch_bytes::{
    ByteOrder2, Outside, Wide, read_u16_at, read_u32_at, read_u64_at, read_word_at, round_up,
    write_u16_at, write_u32_at, write_u64_at, write_word_at,
};

const BYTES: [u8; 9] = [1, 2, 3, 4, 5, 6, 7, 8, 9];

const LITTLE: ByteOrder2 = ByteOrder2::Little;

const BIG: ByteOrder2 = ByteOrder2::Big;

// A kind of field: one with calls of its own, or a word of a width.
#[derive(Clone, Copy)]
enum Field {
    U16,
    U32,
    U64,
    Word(Wide),
}

const NARROW: Field = Field::Word(Wide::W32);

const WIDE: Field = Field::Word(Wide::W64);

// The number of a field in the bytes.
fn read(field: Field, position: usize, order: ByteOrder2) -> Result<u64, Outside> {
    let bytes = BYTES.as_slice();
    match field {
        Field::U16 => read_u16_at(bytes, position, order).map(u64::from),
        Field::U32 => read_u32_at(bytes, position, order).map(u64::from),
        Field::U64 => read_u64_at(bytes, position, order),
        Field::Word(wide) => read_word_at(bytes, position, wide, order),
    }
}

// What a write of 0x0a0b answers.
fn write(
    bytes: &mut [u8],
    field: Field,
    position: usize,
    order: ByteOrder2,
) -> Result<(), Outside> {
    match field {
        Field::U16 => write_u16_at(bytes, position, 0x0a0b, order),
        Field::U32 => write_u32_at(bytes, position, 0x0a0b, order),
        Field::U64 => write_u64_at(bytes, position, 0x0a0b, order),
        Field::Word(Wide::W32) => write_word_at(bytes, position, 0x0a0b, Wide::W32, order),
        Field::Word(Wide::W64) => write_word_at(bytes, position, 0x0a0b, Wide::W64, order),
    }
}

// A field, its position and byte order, its number in the bytes, and the bytes after a write.
type Row = (Field, usize, ByteOrder2, Result<u64, Outside>, [u8; 9]);

const OUTSIDE: Result<u64, Outside> = Err(Outside);

const ROWS: [Row; 18] = [
    (
        Field::U16,
        7,
        LITTLE,
        Ok(0x0908),
        [1, 2, 3, 4, 5, 6, 7, 0x0b, 0x0a],
    ),
    (
        Field::U16,
        7,
        BIG,
        Ok(0x0809),
        [1, 2, 3, 4, 5, 6, 7, 0x0a, 0x0b],
    ),
    (
        Field::U16,
        0,
        LITTLE,
        Ok(0x0201),
        [0x0b, 0x0a, 3, 4, 5, 6, 7, 8, 9],
    ),
    (
        Field::U32,
        1,
        LITTLE,
        Ok(0x0504_0302),
        [1, 0x0b, 0x0a, 0, 0, 6, 7, 8, 9],
    ),
    (
        Field::U32,
        1,
        BIG,
        Ok(0x0203_0405),
        [1, 0, 0, 0x0a, 0x0b, 6, 7, 8, 9],
    ),
    (
        Field::U32,
        2,
        BIG,
        Ok(0x0304_0506),
        [1, 2, 0, 0, 0x0a, 0x0b, 7, 8, 9],
    ),
    (
        Field::U64,
        1,
        LITTLE,
        Ok(0x0908_0706_0504_0302),
        [1, 0x0b, 0x0a, 0, 0, 0, 0, 0, 0],
    ),
    (
        Field::U64,
        1,
        BIG,
        Ok(0x0203_0405_0607_0809),
        [1, 0, 0, 0, 0, 0, 0, 0x0a, 0x0b],
    ),
    (
        NARROW,
        0,
        BIG,
        Ok(0x0102_0304),
        [0, 0, 0x0a, 0x0b, 5, 6, 7, 8, 9],
    ),
    (
        NARROW,
        5,
        LITTLE,
        Ok(0x0908_0706),
        [1, 2, 3, 4, 5, 0x0b, 0x0a, 0, 0],
    ),
    (
        WIDE,
        0,
        BIG,
        Ok(0x0102_0304_0506_0708),
        [0, 0, 0, 0, 0, 0, 0x0a, 0x0b, 9],
    ),
    (
        WIDE,
        0,
        LITTLE,
        Ok(0x0807_0605_0403_0201),
        [0x0b, 0x0a, 0, 0, 0, 0, 0, 0, 9],
    ),
    // Fields that reach past the end.
    (Field::U16, 8, BIG, OUTSIDE, BYTES),
    (Field::U32, 6, BIG, OUTSIDE, BYTES),
    (Field::U64, 2, BIG, OUTSIDE, BYTES),
    (Field::U64, usize::MAX, BIG, OUTSIDE, BYTES),
    (NARROW, 6, BIG, OUTSIDE, BYTES),
    (WIDE, 2, BIG, OUTSIDE, BYTES),
];

fn follow(rt: &impl Runtime, row: &Row) {
    let mut bytes = BYTES;
    let number = read(row.0, row.1, row.2);
    let answer = write(&mut bytes, row.0, row.1, row.2);
    let found = (number, answer.is_ok(), bytes);
    same(rt, "field", &found, &(row.3, row.3.is_ok(), row.4));
}

#[test]
fn fields(rt: HostRuntime) {
    for row in &ROWS {
        follow(&rt, row);
    }
}

#[test]
fn texts_and_widths(rt: HostRuntime) {
    let text = sure!(&rt; format!(in rt.alloc(); "{Outside}"));
    let found = (text.as_str(), Wide::W32.is_big(), Wide::W64.is_big());
    same(&rt, "text", &found, &("Outside", false, true));
}

// Numbers, units, and the first multiples from there on.
const MULTIPLES: [(u64, u64, Option<u64>); 7] = [
    (0, 4, Some(0)),
    (5, 4, Some(8)),
    (8, 4, Some(8)),
    (9, 8, Some(16)),
    (7, 1, Some(7)),
    (u64::MAX, 2, None),
    (u64::MAX, 1, Some(u64::MAX)),
];

#[test]
fn rounds_up(rt: HostRuntime) {
    for (number, unit, want) in &MULTIPLES {
        same(&rt, "multiple", &round_up(*number, *unit), want);
    }
}
