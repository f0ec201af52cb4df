//! Directories that go from run paths.

/// Why a directory goes from a run path.
#[derive(Clone, Copy, Debug, PartialEq, Eq)]
pub enum Reason {
    /// Prefixes were given, and none begins the directory.
    Prefix,
    /// No needed library was found in the directory for the image's machine.
    NoLibrary,
}

/// A directory that went from a run path.
#[derive(Debug, Drop)]
pub struct Removed {
    /// The directory, as the run path had it.
    pub directory: Vec<u8>,
    /// Why the directory went.
    pub reason: Reason,
}
