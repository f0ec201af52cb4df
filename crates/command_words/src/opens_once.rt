//! What opens one store.
ghost use Rattle.std.specs.Prelude.{◌≡◌, ℕ, List, Option, None, IfErr, IfOk, false, ⊤};
ghost use Rattle.std.specs.declared.io.Error.{Error};

use byte_store::{Opens, Store};
use std::io;

/// A thing that opens one store by its path, and is used up by that. A function that is handed one opens nothing a second time,
/// so what it says of the store that it opened is all that became of the bytes at the path. Whatever opens stores, lent, opens
/// one.
pub trait OpensOnce<'p> {
    /// The store that is opened, which may keep the path.
    type Opened: Store + Drop;

    // The bytes at a path, where they are known.
    ghost contents: { Self → List ℕ → Option (List ℕ) } = { λ _ _. None };

    // The errors that an opening of a path may answer, where that is known.
    ghost may_fail: { Self → List ℕ → Error → Type 0 } = { λ _ _ _. ⊤ };

    /// Opens the store at a path for reading. It has counted no failure.
    fn open_once(self, path: &'p str) -> io::Result<Self::Opened>
        ensures bytes { IfOk result (λ store.
            Self.Opened.contents store ≡ contents self path.now) }
        ensures closed { IfOk result (λ store. Self.Opened.is_writable store ≡ false) }
        ensures fresh { IfOk result (λ store. Self.Opened.failed store ≡ 0) }
        ensures cause { IfErr result (λ e. may_fail self path.now e) };
}

impl<'f, 'p, O: Opens<'p>> OpensOnce<'p> for &'f O {
    type Opened = O::Opened;

    ghost contents = { λ files path. O.contents files.now path };

    ghost may_fail = { λ files path e. O.may_fail files.now path e };

    fn open_once(self, path: &'p str) -> io::Result<O::Opened> {
        self.open(path)
    }
}
