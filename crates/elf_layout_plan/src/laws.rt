//! What is proved of rounds and of plans. The functions do nothing: each stands for the law that is its contract.
ghost use Rattle.elf_layout_plan.specs.ApartLaws.{
  FixedSectionsStay,
  PlansAreApart,
  PlansShowNotes,
};
ghost use Rattle.elf_layout_plan.specs.Laws.{PlansAreOne, RoundsAreAsked, RoundsEnd};
ghost use Rattle.elf_layout_plan.specs.PlacedLaws.{PlansArePlaced};

/// Rounds lead to a number of program headers that is asked for.
#[tactic(auto, using(crate::proofs::RoundLaws::rounds_are_asked))]
pub fn rounds_are_asked()
    ensures { RoundsAreAsked }
{}

/// Rounds come to an end.
#[tactic(auto, using(crate::proofs::RoundLaws::rounds_end))]
pub fn rounds_end()
    ensures { RoundsEnd }
{}

/// An image has no more than one plan.
pub fn plans_are_one()
    ensures { PlansAreOne }
{}

/// A plan of an edited image is placed in the file as the read rules ask of a file.
pub fn plans_are_placed()
    ensures { PlansArePlaced }
{}

/// Sections that can't move stay at their addresses.
pub fn fixed_sections_stay()
    ensures { FixedSectionsStay }
{}

/// In each plan of an edited image headers and sections share no address.
pub fn plans_are_apart()
    ensures { PlansAreApart }
{}

/// In each plan of an edited image every note is shown as it was by the program headers that are still there.
pub fn plans_show_notes()
    ensures { PlansShowNotes }
{}
