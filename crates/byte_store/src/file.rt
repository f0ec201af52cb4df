//! A store over a file.
ghost use Rattle.std.specs.Prelude.{◌≡◌, false, IfOk, IsSome, is_some};
ghost use Rattle.std.specs.Io.{ReadsAtMost, WritesAtMost};

use crate::failures::Failures;
use crate::opens::{Creates, Opens};
use crate::stores::Store;
use std::fs::{OpenFile, OpenOptions};
use std::io::{Read, Seek, SeekFrom, Write};
use std::rt::Files;
use std::{fs, io};

/// A file by its path. It is opened for writing by a handle of its own, which neither creates nor cuts
/// it: links, mode and inode stay. What is read one after another takes no seek, so a pipe can be read.
#[derive(Drop)]
pub struct FileStore<'a, R: Files> {
    files: &'a R,
    path: &'a str,
    reader: R::File,
    position: u64,
    writer: Option<R::File>,
    failures: Failures,
}

impl<'a, R: Files> FileStore<'a, R> {
    /// Opens a file for reading.
    pub fn open(files: &'a R, path: &'a str) -> io::Result<FileStore<'a, R>>
        ensures closed { IfOk result (λ store.
            ⟦<FileStore<'a, R> as Store>⟧.is_writable store ≡ false) }
        ensures fresh { IfOk result (λ store. ⟦<FileStore<'a, R> as Store>⟧.failed store ≡ 0) }
    {
        let reader = fs::open(files, path)?;
        Ok(FileStore {
            files,
            path,
            reader,
            position: 0,
            writer: None,
            failures: Failures::none(),
        })
    }

    // How many bytes the file has.
    fn length_of_file(&self) -> io::Result<u64> {
        Ok(self.reader.metadata()?.len())
    }

    // Reads from an offset on.
    fn read_from(&mut self, offset: u64, buffer: &mut [u8]) -> io::Result<usize>
        ensures bound { ReadsAtMost result buffer.new }
        ensures writer { self.new.writer ≡ self.old.writer }
        ensures failures { self.new.failures ≡ self.old.failures }
    {
        if self.position != offset {
            self.reader.seek(SeekFrom::Start(offset))?;
            self.position = offset;
        }
        let count = self.reader.read(buffer)?;
        self.position = offset.saturating_add(count as u64);
        Ok(count)
    }

    // Writes from an offset on.
    fn write_from(&mut self, offset: u64, bytes: &[u8]) -> io::Result<usize>
        requires { IsSome self.old.writer }
        ensures bound { WritesAtMost result bytes.now }
        ensures writer { IsSome self.new.writer }
        ensures failures { self.new.failures ≡ self.old.failures }
    {
        match &mut self.writer {
            Some(writer) => {
                writer.seek(SeekFrom::Start(offset))?;
                writer.write(bytes)
            }
            None => unreachable!(),
        }
    }

    // Sets the length of the file.
    fn cut(&self, length: u64) -> io::Result<()>
        requires { IsSome self.now.writer }
    {
        match &self.writer {
            Some(writer) => writer.set_len(length),
            None => unreachable!(),
        }
    }
}

/// The files of a runtime, opened by their paths. What they hold is not known.
#[derive(Clone, Copy)]
pub struct RuntimeFiles<'a, R> {
    /// The runtime.
    pub files: &'a R,
}

impl<'a, R: Files> Opens<'a> for RuntimeFiles<'a, R> {
    type Opened = FileStore<'a, R>;

    fn open(&self, path: &'a str) -> io::Result<FileStore<'a, R>> {
        FileStore::open(self.files, path)
    }
}

impl<'a, 'p, R: Files> Creates<'p> for RuntimeFiles<'a, R> {
    type Created = R::File;

    fn create(&self, path: &'p str) -> io::Result<R::File> {
        fs::create(self.files, path)
    }
}

impl<'a, R: Files> Store for FileStore<'a, R> {
    ghost is_writable = { λ store. is_some store.writer };

    ghost failed = { λ store. store.failures.count };

    fn length(&mut self) -> io::Result<u64> {
        let answer = self.length_of_file();
        self.failures.count_call(&answer);
        answer
    }

    fn read_at(&mut self, offset: u64, buffer: &mut [u8]) -> io::Result<usize> {
        let answer = self.read_from(offset, buffer);
        self.failures.count_call(&answer);
        answer
    }

    fn open_for_writing(&mut self) -> io::Result<()> {
        match OpenOptions::new().write(true).open(self.files, self.path) {
            Ok(writer) => {
                self.writer = Some(writer);
                Ok(())
            }
            Err(error) => {
                self.failures.count_one();
                Err(error)
            }
        }
    }

    fn write_at(&mut self, offset: u64, bytes: &[u8]) -> io::Result<usize> {
        let answer = self.write_from(offset, bytes);
        self.failures.count_write(&answer, bytes.len());
        answer
    }

    fn set_length(&mut self, length: u64) -> io::Result<()> {
        let answer = self.cut(length);
        self.failures.count_call(&answer);
        answer
    }

    fn failures(&self) -> u64 {
        self.failures.count
    }
}
