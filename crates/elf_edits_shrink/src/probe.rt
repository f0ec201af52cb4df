//! What is found out before a run path shrinks.

use patch_bytes::ByteString;

/// What was found for a directory of a run path and a needed library: the machine of the file of that name.
#[derive(Debug, Drop)]
pub struct ProbeAnswer<'a> {
    /// The directory, as the run path has it.
    pub directory: ByteString<'a>,
    /// The library's name, as the dynamic list has it.
    pub needed: ByteString<'a>,
    /// The file's machine (gABI, ELF Header, `e_machine`); `None` where there is no such file, or where it is no ELF
    /// file.
    pub machine: Option<u16>,
}
