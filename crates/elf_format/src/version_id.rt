ghost use Rattle.std.specs.Prelude.{◌≡◌, false};

/// The version of a dynamic symbol (GNU symbol versioning, `.gnu.version`).
#[derive(Clone, Copy, Debug, PartialEq, Eq)]
pub struct VersionId {
    /// 0 for a local symbol, 1 for a global one without a version, else the number of a version.
    pub index: u16,
    /// A hidden symbol is found only where its version is asked for.
    pub hidden: bool,
}

impl VersionId {
    /// The version of a local symbol.
    pub fn local() -> Self
        ensures { result ≡ record { index = 0; hidden = false } }
    {
        VersionId {
            index: 0,
            hidden: false,
        }
    }

    /// The version of a global symbol without a version of its own.
    pub fn global() -> Self
        ensures { result ≡ record { index = 1; hidden = false } }
    {
        VersionId {
            index: 1,
            hidden: false,
        }
    }
}
