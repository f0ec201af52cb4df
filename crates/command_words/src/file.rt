//! Which files are read, and how much of them.
ghost use Rattle.std.specs.Prelude.{◌≡◌, None};
ghost use Rattle.std.specs.Fs.{IsFile};

use byte_store::{FileStore, Opens};
use std::fs::FileType;
use std::io::ErrorKind;
use std::os::unix::fs::FileTypeExt;
use std::rt::Files;
use std::{fs, io};

/// How many bytes of a Mach-O file are read at most: one more than such a file may have. An edit mostly reads the front of each
/// slice alone. Of an ELF file so many are read, as far as it has them, or more where the file says that it has more.
pub const MOST_BYTES: usize = 1 << 32;

/// The device that holds no byte. It is read as an empty file.
const NULL_DEVICE: &str = "/dev/null";

/// The files of a runtime that hold bytes of their own, opened by their paths. What they hold is not known. A
/// directory, a FIFO, a socket or a device is refused by what it is before it is opened, so that nothing waits for
/// another program.
#[derive(Clone, Copy)]
pub struct RegularFiles<'a, R> {
    /// The runtime.
    pub files: &'a R,
}

impl<'a, R: Files> Opens<'a> for RegularFiles<'a, R> {
    type Opened = FileStore<'a, R>;

    fn open(&self, path: &'a str) -> io::Result<FileStore<'a, R>> {
        let metadata = fs::metadata(self.files, path)?;
        match why_not_regular(metadata.file_type()) {
            Some(why) if path != NULL_DEVICE => Err(io::Error::new(ErrorKind::InvalidInput, why)),
            _ => FileStore::open(self.files, path),
        }
    }
}

/// What a file is that is not regular; `None` for a regular one.
fn why_not_regular(kind: FileType) -> Option<&'static str>
    ensures regular { IsFile kind → result ≡ None }
    ensures other { result ≡ None → IsFile kind }
{
    if kind.is_file() {
        return None;
    }
    Some(other_kind(kind))
}

/// What a file is that is not regular.
fn other_kind(kind: FileType) -> &'static str {
    if kind.is_dir() {
        return "a directory, not a file";
    }
    if kind.is_fifo() {
        return "a FIFO, not a file";
    }
    if kind.is_socket() {
        return "a socket, not a file";
    }
    "a device, not a file"
}
