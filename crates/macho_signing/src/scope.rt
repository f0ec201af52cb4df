//! Which pages get their slots made anew.
ghost use Rattle.std.specs.Prelude.{◌≡◌};

use crate::file::Part;

/// Which pages get their slots made anew.
#[derive(Clone, Copy, Debug)]
pub enum Scope<'a> {
    /// All pages.
    All,
    /// The pages in which a byte differs from these bytes, which are as many as those of the file.
    Since(&'a [u8]),
}

impl<'a> Scope<'a> {
    ghost use Rattle.macho_signing.specs.File.{HasPart, pages_in};
    ghost use Rattle.macho_signing.specs.Thin.{pages_of};

    /// Which pages of a part of the file get their slots made anew.
    pub(crate) fn part(self, part: Part) -> Scope<'a>
        requires { HasPart (pages_of self) part }
        ensures { pages_of result ≡ pages_in (pages_of self.entry) part }
    {
        match self {
            Scope::All => Scope::All,
            Scope::Since(old) => Scope::Since(&old[part.offset..part.offset + part.size]),
        }
    }
}
