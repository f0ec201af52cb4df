//! Why run paths can't shrink.
ghost use Rattle.std.specs.Prelude.{◌≡◌, List, option_map};
ghost use Rattle.elf_edits.specs.Cause.{first_cause};
ghost use Rattle.elf_edits.specs.CauseModel.{cause_model};
ghost use Rattle.elf_edits.specs.Edit.{Answer, ShrinkRpath};
ghost use Rattle.elf_edits.specs.EditModel.{texts_model};
ghost use Rattle.elf_edits.specs.Facts.{facts_model};

use elf_edits::texts::any_nul;
use elf_edits::{Cause, Facts, Task};
use elf_image::constants::EM_MIPS;

/// The first cause that stands against shrinking the run paths of an image with these facts: the machine, that there is
/// no dynamic section, a NUL in a prefix, and that there is no run path; `None` where none does. Takes no memory.
#[tactic(auto, unfolding(elf_edits::specs::Cause::first_cause))]
pub fn shrink_cause(prefixes: &[Vec<u8>], facts: &Facts<'_>) -> Option<Cause<'static>>
    ensures { (answers : List Answer) →
        option_map cause_model result
        ≡ first_cause (ShrinkRpath (texts_model prefixes.now) answers) (facts_model facts.now) }
{
    if facts.machine == EM_MIPS {
        Some(Cause::MipsImage)
    } else if !facts.has_list {
        Some(Cause::NoDynamic(Task::ShrinkRpath))
    } else if any_nul(prefixes) {
        Some(Cause::NulInText)
    } else if !facts.has_run_path {
        Some(Cause::NoRunPath)
    } else {
        None
    }
}
