ghost use Rattle.std.specs.Prelude.{◌≡◌, IfOk, IsOk, IsSome, MatchResult, None as none, option_map};
ghost use Rattle.std.specs.Borrow.{sem};
ghost use Rattle.elf_format.specs.declared.constants.TheConstants.{PT_GNU_STACK as STACK};
ghost use Rattle.elf_image.specs.File.{segment_of_type};
ghost use Rattle.elf_image.specs.ImageModel.{segment_model};
ghost use Rattle.elf_apply.specs.Drafted.{stack_flags_of};
ghost use Rattle.elf_apply.specs.StackLent.{LendsAddedFlags, LendsFlagsThere, LendsStackFlags, TellsWhy, flags_to_lend, stack_cause};

use crate::error::ElfError;
use crate::refusals::stack_refusal;
use elf_edits::image_facts;
use elf_image::constants::{EM_MIPS, PT_GNU_STACK};
use elf_image::{Builder, Segment};
use std::alloc::Global;

/// What is asked of an image besides its own functions.
pub trait BuilderExt<'data> {
    ghost use Rattle.elf_image.specs.Image.{Image};

    // The image.
    ghost image: { Self → Image };

    /// The first PT_GNU_STACK, whose flags say whether the stack may be run (GNU extension). Takes no memory.
    fn gnu_stack(&self) -> Option<&Segment<'data>>
        ensures { option_map (λ p. segment_model p.now) result
            ≡ segment_of_type STACK (image self.now).segments };

    /// Lends the flags of the first PT_GNU_STACK (GNU extension), and the image counts as changed; `None` without one,
    /// and of an image for MIPS, which can't be modified. Takes no memory.
    fn gnu_stack_mut(&mut self) -> Option<&mut u32>
        ensures* lends { sem 𝓛 (LendsStackFlags Self.row image self.entry result) }
        ensures value { option_map (λ flags. flags.now) result ≡ flags_to_lend (image self.old) };

    /// Puts a PT_GNU_STACK behind all program headers (GNU extension), and lends its flags: those of a stack that may
    /// be read, written and run. It stands nowhere. Where one is there already, none is added, and the flags of the
    /// first are lent as they are, which takes no memory. The image counts as changed. Errors, and nothing has changed:
    /// the image is for MIPS, one would have to be added to 65,534 program headers, or there was no memory.
    fn add_gnu_stack(&mut self, alloc: Global) -> Result<&mut u32, ElfError>
        ensures* lends { sem 𝓛 (LendsAddedFlags Self.row image self.entry result) }
        ensures answer { MatchResult result (λ _. stack_cause (image self.old) ≡ none)
            (λ e. TellsWhy (stack_cause (image self.old)) e) }
        ensures there { stack_cause (image self.old) ≡ none
            → IsSome (segment_of_type STACK (image self.old).segments) → IsOk result }
        ensures value { IfOk result (λ flags. flags.now
            ≡ stack_flags_of (image self.old).segments) };
}

impl<'data> BuilderExt<'data> for Builder<'data> {
    ghost image = { λ b. b };

    fn gnu_stack(&self) -> Option<&Segment<'data>> {
        self.segments()
            .iter()
            .find(|segment| segment.p_type() == PT_GNU_STACK)
    }

    fn gnu_stack_mut(&mut self) -> Option<&mut u32> {
        if self.header().e_machine == EM_MIPS {
            return None;
        }
        self.stack_mut()
    }

    fn add_gnu_stack(&mut self, alloc: Global) -> Result<&mut u32, ElfError> {
        if let Some(cause) = stack_refusal(&image_facts(self)) {
            return Err(ElfError::Modify(cause));
        }
        if self.stack().is_some() {
            return Ok(flags_there(self));
        }
        Ok(self.add_stack(alloc)?)
    }
}

// Lends the flags of the first program header for the stack, which is there.
fn flags_there<'b, 'data>(builder: &'b mut Builder<'data>) -> &'b mut u32
    requires { IsSome (segment_of_type STACK builder.old.segments) }
    ensures* lends { sem 𝓛 (LendsFlagsThere builder.entry result) }
    ensures value { result.now ≡ stack_flags_of builder.old.segments }
{
    match builder.stack_mut() {
        Some(flags) => flags,
        None => unreachable!(),
    }
}
