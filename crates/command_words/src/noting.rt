//! Whether notes are wanted.

/// Whether the lines are wanted that tell what a user should know of an edit, each of which begins with `note: `.
#[derive(Clone, Copy)]
pub enum Notes {
    /// The lines are wanted, of the file as it is before the edit.
    Wanted,
    /// No lines are wanted.
    LeftOut,
}
