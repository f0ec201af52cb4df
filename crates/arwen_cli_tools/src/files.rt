//! The files of a line.
use byte_store::{Creates, FileStore, Opens};
use command_words::RegularFiles;
use std::fs::OpenOptions;
use std::io;
use std::os::unix::fs::OpenOptionsExt;
use std::rt::Files;

/// The permissions that a file gets which is created, but for those that the process leaves out: all, so that a program can
/// be run.
const ALL_PERMISSIONS: u32 = 0o777;

/// The files of a runtime: regular ones are opened, as `RegularFiles` does, and created so that they may be run.
#[derive(Clone, Copy)]
pub struct LineFiles<'a, R> {
    /// The runtime.
    pub files: &'a R,
}

impl<'a, R: Files> Opens<'a> for LineFiles<'a, R> {
    type Opened = FileStore<'a, R>;

    fn open(&self, path: &'a str) -> io::Result<FileStore<'a, R>> {
        let regular = RegularFiles { files: self.files };
        regular.open(path)
    }
}

impl<'a, 'p, R: Files> Creates<'p> for LineFiles<'a, R> {
    type Created = R::File;

    fn create(&self, path: &'p str) -> io::Result<R::File> {
        let mut options = OpenOptions::new();
        options.write(true).create(true).truncate(true);
        options.mode(ALL_PERMISSIONS);
        options.open(self.files, path)
    }
}
