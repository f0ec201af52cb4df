//! Prints where the bytes of a file changed.
use std::io;

/// Prints what became of a file: its length, and each row that holds other bytes than before, with the offset
/// of its first byte.
pub(crate) fn print_changes(
    rt: &HostRuntime,
    before: &Option<Vec<u8>>,
    after: &Option<Vec<u8>>,
) -> io::Result<()> {
    match (before, after) {
        (Some(before), Some(after)) => print_rows(rt, before.as_slice(), after.as_slice()),
        (None, None) => println!(rt; "no file"),
        (Some(_), None) => println!(rt; "the file is gone"),
        (None, Some(_)) => println!(rt; "a file was made"),
    }
}

/// Prints a length, and each row of 16 bytes that is not as before.
pub(crate) fn print_rows(rt: &HostRuntime, before: &[u8], after: &[u8]) -> io::Result<()> {
    if before == after {
        return println!(rt; "{} bytes, as before", after.len());
    }
    test_cases_images::print_rows(rt, before, after)
}
