//! What opens a store, or creates a writer, by its path.
ghost use Rattle.std.specs.Prelude.{◌≡◌, ℕ, List, Option, None, IfErr, IfOk, false, ⊤};
ghost use Rattle.std.specs.declared.io.Error.{Error};

use crate::stores::Store;
use std::io;
use std::io::Write;

/// A thing that opens stores by their paths: the files of a system, or bytes in memory.
pub trait Opens<'p> {
    /// The store that is opened, which may keep the path.
    type Opened: Store + Drop;

    // The bytes at a path, where they are known.
    ghost contents: { Self → List ℕ → Option (List ℕ) } = { λ _ _. None };

    // The errors that an opening of a path may answer, where that is known.
    ghost may_fail: { Self → List ℕ → Error → Type 0 } = { λ _ _ _. ⊤ };

    /// Opens the store at a path for reading. It has counted no failure.
    fn open(&self, path: &'p str) -> io::Result<Self::Opened>
        ensures bytes { IfOk result (λ store.
            Self.Opened.contents store ≡ contents self.now path.now) }
        ensures closed { IfOk result (λ store. Self.Opened.is_writable store ≡ false) }
        ensures fresh { IfOk result (λ store. Self.Opened.failed store ≡ 0) }
        ensures cause { IfErr result (λ e. may_fail self.now path.now e) };
}

/// A thing that creates files by their paths, to be written from the start: on a system, or in memory.
pub trait Creates<'p> {
    /// The file that is created, which may keep the path.
    type Created: Write + Drop;

    // What is known of the bytes of a file that was created.
    ghost is_new: { Option (List ℕ) → Type 0 } = { λ _. ⊤ };

    // The errors that a creation at a path may answer, where that is known.
    ghost may_fail: { Self → List ℕ → Error → Type 0 } = { λ _ _ _. ⊤ };

    /// Creates the file at a path, or cuts the one that is there to no byte.
    fn create(&self, path: &'p str) -> io::Result<Self::Created>
        ensures fresh { IfOk result (λ file. is_new (Self.Created.contents file)) }
        ensures cause { IfErr result (λ e. may_fail self.now path.now e) };
}
