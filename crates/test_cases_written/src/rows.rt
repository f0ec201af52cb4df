//! Bytes as text.
use std::{fmt, io};

/// How many bytes a row has.
const ROW: usize = 16;

/// Prints how many bytes there are, and each row of 16 that is not as it was, with its offset.
pub fn print_rows(rt: &HostRuntime, before: &[u8], after: &[u8]) -> io::Result<()> {
    println!(rt; "{} bytes", after.len())?;
    let mut old = before;
    let mut at = 0u64;
    for row in after.chunks(ROW) {
        let (there, behind) = old.split_at(row.len().min(old.len()));
        if there != row {
            println!(rt; "{at:06x}{}", Row(row))?;
        }
        old = behind;
        at = at.wrapping_add(ROW as u64);
    }
    Ok(())
}

/// Bytes in hex, in groups of four.
#[derive(Clone, Copy)]
pub struct Row<'a>(pub &'a [u8]);

impl fmt::Display for Row<'_> {
    fn fmt<W: fmt::Write>(&self, f: &mut fmt::Formatter<W>) -> fmt::Result {
        for group in self.0.chunks(4) {
            put_group(group, f)?;
        }
        Ok(())
    }
}

/// Puts down a group of bytes behind a blank.
fn put_group<W: fmt::Write>(group: &[u8], f: &mut fmt::Formatter<W>) -> fmt::Result {
    write!(f, " ")?;
    for byte in group {
        write!(f, "{byte:02x}")?;
    }
    Ok(())
}

/// Bytes as text, a character each, `~` for a NUL.
#[derive(Clone, Copy)]
pub struct Text<'a>(pub &'a [u8]);

impl fmt::Display for Text<'_> {
    fn fmt<W: fmt::Write>(&self, f: &mut fmt::Formatter<W>) -> fmt::Result {
        for byte in self.0 {
            let letter = if *byte == 0 { '~' } else { char::from(*byte) };
            write!(f, "{letter}")?;
        }
        Ok(())
    }
}
