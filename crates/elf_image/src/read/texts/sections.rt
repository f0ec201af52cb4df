ghost use Rattle.std.specs.Prelude.{◌≡◌, ◌≤◌, length, map, IfErr};
ghost use Rattle.std.specs.List.{slice_get};
ghost use Rattle.patch_bytes.specs.Memory.{memory_of};
ghost use Rattle.elf_format.specs.Image.{section_read};
ghost use Rattle.elf_image.specs.ImageModel.{section_model};
ghost use Rattle.elf_format.specs.Options.{each};
ghost use Rattle.elf_format.specs.Answers.{Gives};
ghost use Rattle.elf_format.specs.declared.view_fault.ViewFault.TheVariants.{Absent};
ghost use Rattle.elf_image_versions.specs.Read.{parts_model};
ghost use Rattle.elf_format.specs.Rules.{data_of, texts_of};
ghost use Rattle.elf_image.specs.TextSteps.{named_section};

use elf_format::lookups::{bytes_of, section_bytes};
use elf_format::records::SectionHeader;
use elf_format::section_data::SectionData;
use elf_format::texts::text;
use elf_format::view_fault::ViewFault;
use elf_image_headers::section::Section;
use elf_image_versions::headers::Headers;
use patch_bytes::ByteString;
use std::alloc::Global;

// The names of sections (gABI, ELF Header, e_shstrndx).
fn section_names<'data>(parts: &Headers<'data>) -> &'data [u8]
    ensures value { memory_of result.now ≡ texts_of (parts_model parts.now)
        (slice_get parts.now.sections.items parts.now.header.e_shstrndx) }
    ensures short { length result.now ≤ length parts.now.file.now }
{
    let number = parts.header.e_shstrndx as usize;
    bytes_of(parts.file, parts.sections.get(number).copied())
}

// A section with its name.
#[tactic(auto, unfolding(crate::specs::TextSteps::named_section))]
fn section<'data>(
    file: &'data [u8],
    names: &'data [u8],
    header: SectionHeader,
    kind: SectionData,
) -> Result<Section<'data>, ViewFault>
    requires { length names.now ≤ length file.now }
    ensures shown { Gives section_model result
        (named_section file.now (memory_of names.now) header kind) }
    ensures absent { IfErr result (λ fault. fault ≡ Absent) }
{
    let name = text(file.len(), names, header.sh_name as u64)?;
    Ok(Section {
        name: ByteString::borrowed(name),
        kind,
        sh_type: header.sh_type,
        sh_flags: header.sh_flags,
        sh_addr: header.sh_addr,
        sh_offset: header.sh_offset,
        sh_size: header.sh_size,
        sh_link: header.sh_link,
        sh_info: header.sh_info,
        sh_addralign: header.sh_addralign,
        sh_entsize: header.sh_entsize,
        content: section_bytes(file, header),
    })
}

// The sections with their names; of what kind each is, is handed in.
pub(crate) fn sections<'data>(
    alloc: Global,
    parts: &Headers<'data>,
    kinds: &[SectionData],
) -> Result<Vec<Section<'data>>, ViewFault>
    requires { kinds.now ≡ map (data_of (parts_model parts.now)) parts.now.sections.items }
    ensures { Gives (λ v. map section_model v.items) result
        (each (section_read (parts_model parts.now)) parts.now.sections.items) }
{
    let names = section_names(parts);
    let mut made = Vec::new(alloc);
    for (i, header) in parts.sections.iter().enumerate() {
        let one = section(parts.file, names, *header, kinds[i])?;
        made.push(one)?;
    }
    Ok(made)
}
