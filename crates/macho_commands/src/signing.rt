//! Whether the code signatures of edited files are made to fit again.

/// Whether the slots of ad-hoc code signatures are made anew whose pages an edit touched. A signature by an identity is left
/// in either case, since only that identity could sign again.
#[derive(Clone, Copy, Debug)]
pub enum Signing {
    /// The slots of touched pages are made anew, and the others stay.
    Renewed,
    /// The slots are left.
    Left,
}

/// Which slots of ad-hoc code signatures are made anew.
#[derive(Clone, Copy, Debug)]
pub enum Signs {
    /// No slots.
    Nothing,
    /// The slots of the pages in which the edit changed a byte.
    Touched,
    /// All slots.
    Whole,
}
