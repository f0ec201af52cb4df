//! What the tests share: calls that are refused memory, comparisons, and string tables of given texts.
ghost use Rattle.elf_tables.specs.Strings.{HoldNoNul};

use elf_tables::{Finished, StringTable, TableFault};
use std::alloc::AllocError;
use std::fmt;
use std::process::Abort;

// The runtime that a test is given.
pub(crate) trait Runtime: Abort + AllocGlobal {}

impl<R: Abort + AllocGlobal> Runtime for R {}

// What the first answer gives, or the second where memory was refused. It is not refused again, then.
pub(crate) fn given<T: Drop>(
    rt: &impl Abort,
    first: Result<T, AllocError>,
    second: Result<T, AllocError>,
) -> T {
    match first {
        Ok(value) => value,
        Err(_) => second.expect(rt, "memory"),
    }
}

// What was made, or none where a number is too large.
pub(crate) fn fitting<T: Drop>(made: Result<T, TableFault>) -> Result<Option<T>, AllocError> {
    match made {
        Ok(value) => Ok(Some(value)),
        Err(TableFault::NumberTooLarge) => Ok(None),
        Err(TableFault::Memory) => Err(AllocError),
    }
}

// Compares.
pub(crate) fn same<T: PartialEq + fmt::Debug>(rt: &impl Abort, what: &str, found: &T, want: &T) {
    assert!(rt; found == want, "{what}: {found:?} is not {want:?}");
}

// Adds a text that has no NUL, once more where memory was refused.
fn add<'t>(table: &mut StringTable<'t>, text: &'t [u8]) -> bool
    requires { HoldNoNul table.old }
    ensures { HoldNoNul table.new }
{
    !text.contains(&0) && (table.add(text).is_ok() || table.add(text).is_ok())
}

// Compares the texts of a table.
fn expect_texts(rt: &impl Abort, table: &StringTable<'_>, texts: &[&[u8]]) {
    same(rt, "texts", &table.len(), &texts.len());
    for i in 0..table.len() {
        same(rt, "a text", &texts.get(i), &Some(&table.text(i)));
    }
}

// The table of these texts, of which half have room before they are added.
fn finished<'t>(rt: &impl Runtime, texts: &[&'t [u8]]) -> Result<Finished<'t>, TableFault> {
    let mut table = StringTable::new(rt.alloc());
    let half = texts.len() / 2;
    let has_room = table.reserve(half).is_ok() || table.reserve(half).is_ok();
    assert!(rt; has_room, "room");
    for text in texts {
        assert!(rt; add(&mut table, text), "a text is added");
    }
    expect_texts(rt, &table, texts);
    table.finish(rt.alloc())
}

// The table of these texts, made again where there was no memory.
pub(crate) fn table_of<'t>(rt: &impl Runtime, texts: &[&'t [u8]]) -> Finished<'t> {
    match finished(rt, texts) {
        Ok(table) => table,
        Err(_) => finished(rt, texts).expect(rt, "memory"),
    }
}
