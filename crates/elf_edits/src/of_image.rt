ghost use Rattle.std.specs.Prelude.{◌≡◌, is_some, map, option_map};
ghost use Rattle.elf_format.specs.declared.constants.TheConstants.{PT_GNU_STACK as STACK};
ghost use Rattle.elf_image.specs.File.{segment_of_type};
ghost use Rattle.elf_image.specs.ImageModel.{entry_model, segment_model};
ghost use Rattle.elf_edits.specs.Cause.{facts_of as facts_seen, fixed_names, lists_run_path};
ghost use Rattle.elf_edits.specs.Facts.{facts_model, names_fixed};

use crate::constants::MOST_SEGMENTS;
use crate::facts::Facts;
use crate::list::any_run_path;
use elf_image::constants::PT_GNU_STACK;
use elf_image::{Builder, Dynamic, Segment};
use elf_image_symbols::SymbolsNow;
use elf_image_uses::can_renumber;

// Whether there is a program header for the stack.
fn has_stack(segments: &[Segment<'_>]) -> bool
    ensures { result ≡ is_some (segment_of_type STACK (map segment_model segments.now)) }
{
    for segment in segments {
        if segment.p_type() == PT_GNU_STACK {
            return true;
        }
    }
    false
}

// The dynamic symbols, where all but the first have to keep their names.
fn fixed_symbols<'i>(builder: &'i Builder<'_>) -> Option<SymbolsNow<'i>>
    ensures { names_fixed result ≡ fixed_names builder.now }
{
    if can_renumber(builder) {
        None
    } else {
        Some(builder.edited_dynamic_symbols().lend())
    }
}

/// What of an image decides whether an edit is refused. Takes no memory.
pub fn image_facts<'i>(builder: &'i Builder<'_>) -> Facts<'i>
    ensures { facts_model result ≡ facts_seen builder.now }
{
    let segments = builder.segments();
    let list = builder.dynamic_data();
    Facts {
        machine: builder.header().e_machine,
        has_list: list.is_some(),
        has_run_path: has_run_path(list),
        has_interpreter: builder.interp_data().is_some(),
        is_full: !has_stack(segments) && segments.len() >= MOST_SEGMENTS,
        fixed_symbols: fixed_symbols(builder),
    }
}

// Whether a list has a run path.
fn has_run_path(list: Option<&[Dynamic<'_>]>) -> bool
    ensures { result ≡ lists_run_path (option_map (λ l. map entry_model l.now) list.entry) }
{
    match list {
        None => false,
        Some(entries) => any_run_path(entries),
    }
}
