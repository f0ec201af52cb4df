//! Small lists and images, and what shrinking makes of them. The function does nothing: its contract is computed.
ghost use Rattle.elf_edits_shrink.specs.Rows.{ShrinkRows};

/// Run paths that shrink, with the directories that go, what has to be looked for, and why an image is refused.
pub fn shrink_rows()
    ensures { ShrinkRows }
{}
