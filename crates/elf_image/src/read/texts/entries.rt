ghost use Rattle.std.specs.Prelude.{◌≡◌, map, option_map};
ghost use Rattle.elf_format.specs.declared.constants.TheConstants.{SHT_DYNAMIC as DYNAMIC};
ghost use Rattle.elf_format.specs.File.{section_of_type as first_section};
ghost use Rattle.elf_format.specs.Image.{entries_read};
ghost use Rattle.elf_image.specs.ImageModel.{entry_model};
ghost use Rattle.elf_format.specs.Answers.{Gives};
ghost use Rattle.elf_image_versions.specs.Read.{parts_model};
ghost use Rattle.elf_format.specs.Rules.{raw_entries};

use elf_format::constants::SHT_DYNAMIC;
use elf_format::lookups::section_of_type;
use elf_format::records::EntryNumbers;
use elf_format::view_fault::ViewFault;
use elf_image_headers::dynamic::Dynamic;
use elf_image_headers::entries::kept_entries;
use elf_image_versions::headers::Headers;
use elf_image_versions::texts::dynamic_texts;
use std::alloc::Global;

// The dynamic list with its texts, where there is one.
pub(crate) fn entries<'data>(
    alloc: Global,
    parts: &Headers<'data>,
    raw: &[EntryNumbers],
) -> Result<Option<Vec<Dynamic<'data>>>, ViewFault>
    requires { raw.now ≡ raw_entries (parts_model parts.now) }
    ensures { Gives (λ o. option_map (λ v. map entry_model v.items) o) result
        (entries_read (parts_model parts.now) (first_section DYNAMIC parts.now.sections.items)) }
{
    let Some(section) = section_of_type(&parts.sections, SHT_DYNAMIC) else {
        return Ok(None);
    };
    let texts = dynamic_texts(parts, raw, section);
    let list = kept_entries(alloc, parts.file.len(), texts, raw)?;
    Ok(Some(list))
}
