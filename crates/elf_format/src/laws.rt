//! What is proved of the definitions themselves. The functions do nothing: each stands for the law that
//! is its contract.
ghost use Rattle.elf_format.specs.Facts.{PlacementTestsMean, TestsMean};
ghost use Rattle.elf_format.specs.Image.{ImagesShow};
ghost use Rattle.elf_format.specs.ReadNumbers.{NumbersAreThere};
ghost use Rattle.elf_format.specs.Rules.{AcceptedFilesMeetTheRules, HeldRangesAreSeen, HeldSectionsAreSeen, ViewsAgree};

/// For every byte string that the read rules accept, the section headers show what a loader sees.
pub fn views_agree()
    ensures { ViewsAgree }
{}

/// A file is accepted exactly where each of the read rules holds of it.
pub fn accepted_files_meet_the_rules()
    ensures { AcceptedFilesMeetTheRules }
{}

/// Any bytes in the file part of a loaded segment are seen as far behind its address as they are behind its offset.
pub fn held_ranges_are_seen()
    ensures { HeldRangesAreSeen }
{}

/// What a segment holds is seen at its address.
pub fn held_sections_are_seen()
    ensures { HeldSectionsAreSeen }
{}

/// What each test of placement means, both ways: also of places that no file has yet.
pub fn placement_tests_mean()
    ensures { PlacementTestsMean }
{}

/// What the tests of the read rules mean.
pub fn tests_mean()
    ensures { TestsMean }
{}

/// Every accepted file has an image, which shows what its section headers show and what a loader sees.
pub fn images_show()
    ensures { ImagesShow }
{}

/// An image that was read has a number at read for each section and each symbol.
pub fn numbers_are_there()
    ensures { NumbersAreThere }
{}
