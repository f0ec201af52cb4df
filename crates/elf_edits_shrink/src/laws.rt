//! What is proved of shrinking itself. The function does nothing: it stands for the law that is its contract.
ghost use Rattle.elf_edits_shrink.specs.Laws.{ShrinkingTells};

/// A run path that shrinks tells which directories go, and is as it was where no directory goes.
#[tactic(auto, using(crate::proofs::TellLaws::shrinking_tells))]
pub fn shrinking_tells()
    ensures { ShrinkingTells }
{}
