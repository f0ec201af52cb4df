//! What is proved of the order of the rules. The function does nothing: it stands for the law that is its contract.
ghost use Rattle.elf_image_reasons.specs.ReadTests.{RulesTellFaults};

/// A file that breaks no read rule is accepted; any other is refused with the fault of the first rule that it breaks.
pub fn rules_tell_faults()
    ensures { RulesTellFaults }
{}
