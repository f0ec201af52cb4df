ghost use Rattle.std.specs.Prelude.{◌≡◌, ◌≤◌, length};
ghost use Rattle.patch_bytes.specs.Memory.{memory_of};
ghost use Rattle.elf_image_rules.specs.Read.{parts_model};
ghost use Rattle.elf_format.specs.Rules.{linked_texts, raw_entries};
ghost use Rattle.elf_format.specs.Views.{first_by_tag};

use elf_format::constants::DT_STRSZ;
use elf_format::lookups::{bytes_of, linked_section, value_of_tag};
use elf_format::records::{EntryNumbers, SectionHeader};
use elf_image_rules::headers::Headers;

// As many bytes as a tag says, or all where it isn't there.
fn first_bytes(bytes: &[u8], size: Option<u64>) -> &[u8]
    ensures value { memory_of result.now ≡ first_by_tag size (memory_of bytes.now) }
    ensures short { length result.now ≤ length bytes.now }
{
    match size {
        Some(size) if size < bytes.len() as u64 => &bytes[..size as usize],
        _ => bytes,
    }
}

/// The strings that a section links to (gABI, String Table), as far as DT_STRSZ says where it is there. Takes no
/// memory.
pub fn dynamic_texts<'data>(
    parts: &Headers<'data>,
    raw: &[EntryNumbers],
    section: SectionHeader,
) -> &'data [u8]
    requires { raw.now ≡ raw_entries (parts_model parts.now) }
    ensures value { memory_of result.now ≡ linked_texts (parts_model parts.now) section }
    ensures short { length result.now ≤ length parts.now.file.now }
{
    let texts = bytes_of(parts.file, linked_section(&parts.sections, section));
    first_bytes(texts, value_of_tag(raw, DT_STRSZ))
}
